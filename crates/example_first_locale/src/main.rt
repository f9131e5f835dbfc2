//! The example of README: a locale is parsed, printed, normalized, changed and compared.
#![tactic(auto)]

use icu_locale_core::Locale;
use icu_locale_core::subtags::Region;

fn main(rt: HostRuntime) -> anyhow::Result<()> {
    let alloc = rt.alloc();
    let mut locale = Locale::try_from_str(alloc, "EN-us-u-ca-Buddhist")?;
    show(rt, &mut locale)
}

fn show(rt: HostRuntime, locale: &mut Locale) -> anyhow::Result<()> {
    let alloc = rt.alloc();
    println!(rt; "{locale}")?; // en-US-u-ca-buddhist

    let normal = Locale::normalize(alloc, "en-US")?; // borrowed: it is normal already
    println!(rt; "{normal}")?; // en-US

    locale.id.region = Some(Region::try_from_str("gb")?);
    let same = locale.normalizing_eq(alloc, "en-gb-u-ca-buddhist")?;
    println!(rt; "{same}")?; // true
    Ok(())
}
