//! Room for spans that grows, if there is any.
ghost use Rattle.std.specs.Prelude.{◌≡◌, ◌+◌, ◌-◌, ◌≤◌, ◌∷◌, ◌++◌, drop, length, take, true, false};
ghost use Rattle.iloc_memory.specs.Refusals.{RefusedWithin};

use crate::span::Span;
use iloc_memory::{Memory, extend_from_slice, insert_at};

/// Spans in memory that grows.
#[derive(Drop)]
pub struct More {
    /// The spans.
    pub list: Vec<Span>,
}

ghost use Rattle.iloc_spans.specs.More.{more_spans};

/// The spans in the room that grows.
#[inline(never)]
pub(crate) fn slice_of(more: &Option<More>) -> &[Span]
    ensures { result.now ≡ more_spans more.now }
{
    match more {
        Some(more) => more.list.as_slice(),
        None => &[],
    }
}

/// Puts these spans there, and no others. `false` if memory is refused.
#[inline(never)]
pub(crate) fn fill<M: Memory>(memory: M, more: &mut Option<More>, spans: &[Span]) -> bool
    ensures filled { result ≡ true → more_spans more.new ≡ spans.now }
    ensures refused { result ≡ false → RefusedWithin M.refused (length spans.now) }
{
    let mut list = match more.take() {
        Some(more) => more.list,
        None => memory.empty(),
    };
    list.clear();
    let is_filled = extend_from_slice(memory, &mut list, spans).is_ok();
    *more = Some(More { list });
    is_filled
}

/// Puts a span at a place, where some are. `false` if memory is refused.
#[inline(never)]
pub(crate) fn insert<M: Memory>(memory: M, more: &mut Option<More>, at: usize, span: Span) -> bool
    requires within { at ≤ length (more_spans more.old) }
    requires some { 1 ≤ length (more_spans more.old) }
    ensures put { result ≡ true → more_spans more.new
        ≡ take at (more_spans more.old) ++ span ∷ drop at (more_spans more.old) }
    ensures full { result ≡ false → more_spans more.new ≡ more_spans more.old }
    ensures refused { result ≡ false
        → RefusedWithin M.refused (length (more_spans more.old) + 1) }
{
    match more {
        Some(more) => insert_in(memory, &mut more.list, at, span),
        None => unreachable!(),
    }
}

// Puts it at a place of a list.
fn insert_in<M: Memory>(memory: M, list: &mut Vec<Span>, at: usize, span: Span) -> bool
    requires { at ≤ length list.old.items }
    ensures put { result ≡ true → list.new.items
        ≡ take at list.old.items ++ span ∷ drop at list.old.items }
    ensures full { result ≡ false → list.new.items ≡ list.old.items }
    ensures refused { result ≡ false → RefusedWithin M.refused (length list.old.items + 1) }
{
    insert_at(memory, list, at, span).is_ok()
}

/// Moves the spans from `from` on before those from `at` on.
#[inline(never)]
pub(crate) fn turn(more: &mut Option<More>, at: usize, from: usize)
    requires low { at ≤ from }
    requires high { from ≤ length (more_spans more.old) }
    ensures { more_spans more.new ≡ take at (more_spans more.old)
        ++ (drop (from - at) (drop at (more_spans more.old))
        ++ take (from - at) (drop at (more_spans more.old))) }
{
    if let Some(more) = more {
        more.list.as_mut_slice()[at..].rotate_left(from - at);
    }
}

/// Forgets the spans from a place on.
#[inline(never)]
pub(crate) fn cut(more: &mut Option<More>, to: usize)
    ensures { more_spans more.new ≡ take to (more_spans more.old) }
{
    if let Some(more) = more {
        more.list.truncate(to);
    }
}
