//! What the types keep of all extensions, parsed or built.
ghost use Rattle.std.specs.Prelude.{IfSome};
ghost use Rattle.std.specs.List.{AllByRecursion};
ghost use Rattle.iloc_spec_grammar.specs.Syntax.{languages, Subtag as the_kind};
ghost use Rattle.iloc_spec_grammar.specs.Values.{IsExtensionsValue, IsIdentifierValue, IsNormal, IsTransformValue, IsUnicodeValue};
ghost use Rattle.iloc_langid.specs.Reads as identifiers;
ghost use Rattle.iloc_transform.specs.TransformReading as transforms;
ghost use Rattle.iloc_unicode.specs.UnicodeValue as unicodes;
ghost use Rattle.iloc_unicode.specs.UnicodeValue.{IsKeywordValue};
ghost use Rattle.iloc_extensions.specs.ExtensionsValue.{value_of};

use crate::extensions::Extensions;
use iloc_langid::LanguageIdentifier;
use iloc_other::Other;
use iloc_subtags::UnicodeKey;
use iloc_transform::Transform;
use iloc_unicode::Unicode;
use iloc_word_list::Value;

/// Looks at each part, so that they are known to be a value. A proof calls this; it does nothing else.
pub fn look_at(extensions: &Extensions)
    ensures { IsExtensionsValue languages (value_of extensions.now) }
{
    look_at_unicode(&extensions.unicode);
    look_at_transform(&extensions.transform);
    let _ = extensions.private.as_slice();
    look_at_others(&extensions.other);
}

fn look_at_unicode(unicode: &Unicode)
    ensures { IsUnicodeValue (unicodes.value_of unicode.now) }
{
    let _ = unicode.attributes.as_slice();
    look_at_keywords(unicode.keywords.as_slice());
}

fn look_at_keywords(pairs: &[(UnicodeKey, Value)])
    ensures { AllByRecursion IsKeywordValue pairs.now }
{
    for pair in pairs {
        let _ = pair.0.as_str();
        let _ = pair.1.as_subtags_slice();
    }
}

fn look_at_transform(transform: &Transform)
    ensures { IsTransformValue languages (transforms.value_of transform.now) }
{
    look_at_lang(&transform.lang);
    let _ = transform.fields.as_slice();
}

fn look_at_lang(lang: &Option<LanguageIdentifier>)
    ensures { IfSome lang.now (λ i. IsIdentifierValue languages (identifiers.value_of i)) }
{
    if let Some(lang) = lang {
        let _ = lang.is_unknown();
    }
}

fn look_at_others(others: &[Other])
    ensures { AllByRecursion (λ (_, ws). AllByRecursion (IsNormal the_kind) ws) others.now }
{
    for other in others {
        let _ = other.as_slice();
    }
}
