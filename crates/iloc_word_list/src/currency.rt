//! Currencies as values of their keyword (`cu`). They stand here, because such conversions can stand only in
//! the crate of one of the two types.
ghost use Rattle.std.specs.Prelude.{◌≡◌};
ghost use Rattle.iloc_spec_parts.specs.SingleValues.{currency_reads, currency_gives};
ghost use Rattle.iloc_word_list.specs.Refusals.{Reads};

use crate::errors::PreferencesParseError;
use crate::value::Value;
use iloc_subtags::{CurrencyType, subtag_of};

// The currency of the only subtag of the value.
#[tactic(auto, using(crate::proofs::CurrencyLemmas::only_is_single))]
fn currency_of(value: &Value) -> Option<CurrencyType>
    ensures { result ≡ currency_reads value.now }
{
    let subtag = value.as_single_subtag()?;
    CurrencyType::from_piece(subtag.to_piece()).ok()
}

/// The currency of the only subtag of the value; every other value is refused.
impl TryFrom<&Value> for CurrencyType {
    type Error = PreferencesParseError;

    ghost try_from_gives = { λ value result. Reads
        (λ code. code) (currency_reads value.now) result };

    fn try_from(input: &Value) -> Result<Self, PreferencesParseError> {
        currency_of(input).ok_or(PreferencesParseError::InvalidKeywordValue)
    }
}

/// As from a reference to the value.
impl TryFrom<Value> for CurrencyType {
    type Error = PreferencesParseError;

    ghost try_from_gives = { λ value result. Reads (λ code. code) (currency_reads value) result };

    fn try_from(input: Value) -> Result<Self, PreferencesParseError> {
        Self::try_from(&input)
    }
}

/// The value of this currency, one subtag.
impl From<&CurrencyType> for Value {
    ghost from_gives = { λ currency value. value ≡ currency_gives currency.now };

    fn from(input: &CurrencyType) -> Value {
        let _ = input.as_str();
        Value::from_subtag(Some(subtag_of(input)))
    }
}

/// As from a reference to the currency.
impl From<CurrencyType> for Value {
    ghost from_gives = { λ currency value. value ≡ currency_gives currency };

    fn from(input: CurrencyType) -> Value {
        Value::from(&input)
    }
}
