//! The words of an identifier: which may come next.
ghost use Rattle.std.specs.Prelude.{◌≡◌, List, []};
ghost use Rattle.iloc_spec_grammar.specs.Syntax.{Text, IsWord, Variant, lower};
ghost use Rattle.iloc_normalize.specs.declared.Mode.TheVariants.{Data};
ghost use Rattle.iloc_pieces.specs.Cursor.{piece_left};
ghost use Rattle.iloc_faults.specs.Next.{after_region_next, after_script_next, is_new, word_next};
ghost use Rattle.iloc_faults.specs.States.{AreNewFrom, AreVariantsRead, IsEarly, IsWordRead};

use crate::repeats::{Room, count_new};
use crate::state::Stage;
use iloc_normalize::Mode;
use iloc_pieces::cursor::{Cursor, is_region, is_script, is_variant};

// Whether the piece, a variant, may follow the variants before it: it is none of them, and a data locale has one at most.
#[inline(always)]
fn is_new(mode: Mode, variants: Option<usize>, at: Cursor<'_>) -> bool
    requires word { IsWord Variant (piece_left at) }
    requires before { (vs : List Text) × AreVariantsRead mode variants at vs }
    ensures { (vs : List Text) → AreVariantsRead mode variants at.entry vs
        → result ≡ is_new mode vs (lower (piece_left at.entry)) }
{
    match variants {
        None => true,
        Some(fresh) => match mode {
            Mode::Data => false,
            _ => fresh != 0,
        },
    }
}

// How many variants from the piece on are new. In a data locale none follows, so they are not counted.
#[inline(always)]
fn count_left<R: Room>(room: R, mode: Mode, variants: Option<usize>, at: Cursor<'_>) -> usize
    ensures new { (vs : List Text) → AreVariantsRead mode variants at.entry vs
        → AreNewFrom mode vs at.entry result }
    ensures data { mode ≡ Data → result ≡ 1 }
{
    match mode {
        Mode::Data => 1,
        _ => match variants {
            None => count_new(room, at),
            Some(fresh) => fresh,
        },
    }
}

// What was read once the piece is read too, after a region.
#[inline(always)]
fn read_variant<R: Room>(
    room: R,
    mode: Mode,
    variants: Option<usize>,
    at: Cursor<'_>,
) -> Option<(Stage, Option<usize>)>
    requires { (vs : List Text) × AreVariantsRead mode variants at vs }
    ensures { (vs : List Text) → AreVariantsRead mode variants at.entry vs
        → IsWordRead mode at.entry (after_region_next mode vs (piece_left at.entry)) result }
{
    if !is_variant(at) {
        return None;
    }
    if !is_new(mode, variants, at) {
        return None;
    }
    Some((
        Stage::Region,
        Some(count_left(room, mode, variants, at) - 1),
    ))
}

// What was read once the piece is read too, after a script.
#[inline(always)]
fn read_region<R: Room>(room: R, mode: Mode, at: Cursor<'_>) -> Option<(Stage, Option<usize>)>
    ensures { IsWordRead mode at.entry (after_script_next mode [] (piece_left at.entry)) result }
{
    if is_region(at) {
        return Some((Stage::Region, None));
    }
    read_variant(room, mode, None, at)
}

/// What was read of an identifier once the piece is read too, and its first variant; `None` if the piece may not come
/// next.
#[inline(always)]
pub fn read_word<R: Room>(
    room: R,
    mode: Mode,
    stage: Stage,
    variants: Option<usize>,
    at: Cursor<'_>,
) -> Option<(Stage, Option<usize>)>
    requires before { (vs : List Text) × AreVariantsRead mode variants at vs }
    requires early { IsEarly stage variants }
    ensures { (vs : List Text) → AreVariantsRead mode variants at.entry vs
        → IsWordRead mode at.entry (word_next mode stage vs (piece_left at.entry)) result }
{
    match stage {
        Stage::Language => {
            if is_script(at) {
                return Some((Stage::Script, None));
            }
            read_region(room, mode, at)
        }
        Stage::Script => read_region(room, mode, at),
        Stage::Region => read_variant(room, mode, variants, at),
    }
}
