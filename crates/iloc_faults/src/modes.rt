//! Modes as types.
ghost use Rattle.std.specs.Prelude.{◌≡◌, ◌≤◌, None, IfSome, length, take};
ghost use Rattle.iloc_spec_grammar.specs.Syntax.{IsWord, Language, first_piece, languages, pieces};
ghost use Rattle.iloc_normalize.specs.declared.Mode.{Mode};
ghost use Rattle.iloc_normalize.specs.declared.Mode.TheVariants.{Langid, Locale, Data};
ghost use Rattle.iloc_faults.specs.Next.{started, outcome};
ghost use Rattle.iloc_faults.specs.States.{IsFaultFound};

use crate::repeats::Room;
use crate::{Fault, walk};
use iloc_normalize::Mode;

/// What says in which mode lines are answered. Each mode is a type of its own, so that each has its own loop over lines,
/// and only what that mode asks is left of it.
pub trait InMode {
    ghost mode: { Mode };

    /// The mode.
    fn mode(&self) -> Mode
        ensures { result ≡ mode };

    /// Why the first bytes of the window are refused, which begin with a language, and the place of their fault; `None` if
    /// they are accepted. Of a data locale the place alone counts.
    fn walk_behind<R: Room>(&self, room: R, window: &[u8], len: usize) -> Option<Fault>
        requires inside { len ≤ length window.now }
        requires begins { IsWord (Language languages) (first_piece (pieces (take len window.now))) }
        ensures good { result ≡ None
            → outcome mode started (pieces (take len window.now)) ≡ None }
        ensures bad { IfSome result (IsFaultFound mode (take len window.now)) };
}

/// Lines are answered as language identifiers.
#[derive(Drop)]
pub struct Identifiers;

impl InMode for Identifiers {
    ghost mode = { Langid };

    #[inline(always)]
    fn mode(&self) -> Mode {
        Mode::Langid
    }

    #[inline(always)]
    fn walk_behind<R: Room>(&self, room: R, window: &[u8], len: usize) -> Option<Fault> {
        walk::words_behind(room, window, len)
    }
}

/// Lines are answered as locales.
#[derive(Drop)]
pub struct Locales;

impl InMode for Locales {
    ghost mode = { Locale };

    #[inline(always)]
    fn mode(&self) -> Mode {
        Mode::Locale
    }

    #[inline(always)]
    fn walk_behind<R: Room>(&self, room: R, window: &[u8], len: usize) -> Option<Fault> {
        walk::walk_behind(room, Mode::Locale, window, len)
    }
}

/// Lines are answered as data locales.
#[derive(Drop)]
pub struct DataLocales;

impl InMode for DataLocales {
    ghost mode = { Data };

    #[inline(always)]
    fn mode(&self) -> Mode {
        Mode::Data
    }

    #[inline(always)]
    fn walk_behind<R: Room>(&self, room: R, window: &[u8], len: usize) -> Option<Fault> {
        walk::walk_behind(room, Mode::Data, window, len)
    }
}
