//! Keys that UTS #35 names ("Key And Type Definitions"), as words: none of these can be refused.
// Written by tools/write_keywords from tools/keywords.txt: change that table and not this file.
#![tactic(auto, unfolding(iloc_spec_grammar::specs::Syntax::is_word, iloc_spec_grammar::specs::Syntax::lower))]

ghost use Rattle.std.specs.Prelude.{◌≡◌, codes};

use crate::preference_key::key_of;
use iloc_subtags::UnicodeKey;

/// The calendar (`ca`).
pub fn ca() -> UnicodeKey
    ensures { result ≡ codes "ca" }
{
    key_of("ca")
}

/// The format of currencies (`cf`).
pub fn cf() -> UnicodeKey
    ensures { result ≡ codes "cf" }
{
    key_of("cf")
}

/// The collation (`co`).
pub fn co() -> UnicodeKey
    ensures { result ≡ codes "co" }
{
    key_of("co")
}

/// The currency (`cu`).
pub fn cu() -> UnicodeKey
    ensures { result ≡ codes "cu" }
{
    key_of("cu")
}

/// The scripts that are left out of dictionary-based breaks (`dx`).
pub fn dx() -> UnicodeKey
    ensures { result ≡ codes "dx" }
{
    key_of("dx")
}

/// The presentation of emoji (`em`).
pub fn em() -> UnicodeKey
    ensures { result ≡ codes "em" }
{
    key_of("em")
}

/// The first day of the week (`fw`).
pub fn fw() -> UnicodeKey
    ensures { result ≡ codes "fw" }
{
    key_of("fw")
}

/// The hour cycle (`hc`).
pub fn hc() -> UnicodeKey
    ensures { result ≡ codes "hc" }
{
    key_of("hc")
}

/// Which case collates first (`kf`).
pub fn kf() -> UnicodeKey
    ensures { result ≡ codes "kf" }
{
    key_of("kf")
}

/// Whether digits collate as numbers (`kn`).
pub fn kn() -> UnicodeKey
    ensures { result ≡ codes "kn" }
{
    key_of("kn")
}

/// The style of line breaks (`lb`).
pub fn lb() -> UnicodeKey
    ensures { result ≡ codes "lb" }
{
    key_of("lb")
}

/// How line breaks handle words (`lw`).
pub fn lw() -> UnicodeKey
    ensures { result ≡ codes "lw" }
{
    key_of("lw")
}

/// The system of measurement (`ms`).
pub fn ms() -> UnicodeKey
    ensures { result ≡ codes "ms" }
{
    key_of("ms")
}

/// The unit of temperature (`mu`).
pub fn mu() -> UnicodeKey
    ensures { result ≡ codes "mu" }
{
    key_of("mu")
}

/// The system of digits (`nu`).
pub fn nu() -> UnicodeKey
    ensures { result ≡ codes "nu" }
{
    key_of("nu")
}

/// The region that overrides the identifier's (`rg`).
pub fn rg() -> UnicodeKey
    ensures { result ≡ codes "rg" }
{
    key_of("rg")
}

/// The subdivision of the region (`sd`).
pub fn sd() -> UnicodeKey
    ensures { result ≡ codes "sd" }
{
    key_of("sd")
}

/// Which sentence breaks are suppressed (`ss`).
pub fn ss() -> UnicodeKey
    ensures { result ≡ codes "ss" }
{
    key_of("ss")
}

/// The time zone (`tz`).
pub fn tz() -> UnicodeKey
    ensures { result ≡ codes "tz" }
{
    key_of("tz")
}

/// The common variant (`va`).
pub fn va() -> UnicodeKey
    ensures { result ≡ codes "va" }
{
    key_of("va")
}
