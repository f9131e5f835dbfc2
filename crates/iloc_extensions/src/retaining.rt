//! Clears a part of extensions, unless it is kept.
ghost use Rattle.std.specs.Prelude.{◌≡◌, [], if◌then◌else◌};
ghost use Rattle.iloc_spec_grammar.specs.Meaning.{no_transform, no_unicode};
ghost use Rattle.iloc_transform.specs.TransformReading as transforms;
ghost use Rattle.iloc_unicode.specs.UnicodeValue as unicodes;

use iloc_other::Private;
use iloc_transform::Transform;
use iloc_unicode::Unicode;

#[inline(always)]
pub(crate) fn keep_unicode(unicode: &mut Unicode, keeps: bool)
    ensures { unicodes.value_of unicode.new
        ≡ (if keeps then unicodes.value_of unicode.old else no_unicode) }
{
    if !keeps {
        unicode.clear();
    }
}

#[inline(always)]
pub(crate) fn keep_transform(transform: &mut Transform, keeps: bool)
    ensures { transforms.value_of transform.new
        ≡ (if keeps then transforms.value_of transform.old else no_transform) }
{
    if !keeps {
        transform.clear();
    }
}

#[inline(always)]
pub(crate) fn keep_private(private: &mut Private, keeps: bool)
    ensures { private.new ≡ (if keeps then private.old else []) }
{
    if !keeps {
        private.clear();
    }
}
