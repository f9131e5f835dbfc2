//! Writes the normal texts of data locales.
ghost use Rattle.std.specs.Prelude.{◌≡◌, ◌≢◌, ◌+◌, ◌-◌, ◌≤◌, ◌∷◌, ◌++◌, codes, length, take};
ghost use Rattle.iloc_spec_grammar.specs.Syntax.{HasWords, SpelledIdentifier, is_same, join, languages, lower, upper};
ghost use Rattle.iloc_spec_parts.specs.DataLocales.{DataLocale, data_text, whole};
ghost use Rattle.iloc_outline.specs.Identifier.{front_text};
ghost use Rattle.iloc_outline.specs.Outlines.{BeginsWithLanguage};
ghost use Rattle.iloc_outline.specs.Parts.{front_pieces};
ghost use Rattle.iloc_pieces.specs.Window.{text_in};
ghost use Rattle.iloc_normalize.specs.Data.{HasValue, IsRegionStart};
ghost use Rattle.iloc_normalize.specs.Subdivisions.{bytes_at};
ghost use Rattle.iloc_normalize.specs.Answered.{IsNormalWritten};
ghost use Rattle.iloc_normalize.specs.declared.Mode.TheVariants as Mode;

use crate::copying::copy_lower;
use crate::data::{Data, DataHead, read_data};
use crate::subdivisions::SubdivisionValue;
use crate::writing::Written;
use iloc_outline::identifier::Front;
use iloc_outline::outline::Outline;
use iloc_outline::printing::copy_front;
use iloc_pieces::Window;
use iloc_tinystr::ShortPiece;

// Where the region begins that ends at `end`; `end` if there is none there.
#[inline(always)]
fn region_start(window: &[u8], end: usize) -> usize
    requires { end ≤ length window.now }
    ensures within { result ≤ end }
    ensures near { end ≤ result + 3 }
    ensures start { (i : SpelledIdentifier) → HasWords languages i
        → take end window.now ≡ join (front_pieces i)
        → IsRegionStart window.now end i.region result }
{
    if end < 3 {
        return end;
    }
    if window[end - 3] == b'-' {
        return end - 2;
    }
    if window[end - 1].is_ascii_digit() {
        return end - 3;
    }
    end
}

// The region of a subdivision, in upper case.
#[inline(always)]
fn region_of(window: &[u8], value: &SubdivisionValue) -> ShortPiece
    requires inside { value.now.at + value.now.region ≤ length window.now }
    requires few { value.now.region ≤ 3 }
    ensures { result ≡ upper (bytes_at window.now value.now.at value.now.region) }
{
    let end = value.at + value.region;
    ShortPiece::of(&window[value.at..end])
        .unwrap()
        .to_ascii_uppercase()
}

// Whether it is all of its region.
#[inline(always)]
fn is_whole(window: &[u8], value: &SubdivisionValue) -> bool
    requires few { value.now.region ≤ value.now.len }
    requires inside { value.now.at + value.now.len ≤ length window.now }
    ensures { result ≡ is_same (lower (bytes_at window.now (value.now.at + value.now.region)
        (value.now.len - value.now.region))) whole }
{
    if value.len != value.region + 4 {
        return false;
    }
    let from = value.at + value.region;
    let suffix = ShortPiece::of(&window[from..from + 4]).unwrap();
    suffix.to_ascii_lowercase() == ShortPiece::of(b"zzzz").unwrap()
}

// Writes so many bytes from the front on.
#[inline(always)]
fn put_front(window: &[u8], front: &Front, end: usize, to: &mut [u8])
    requires inside { end ≤ length window.now }
    requires room { end + 16 ≤ length to.old }
    ensures { take end to.new ≡ front_text front.now.script front.now.region (take end window.now) }
{
    let outline = Outline {
        front: end,
        script: front.script,
        region: front.region,
    };
    copy_front(window, &outline, to);
}

// Writes the head, and behind its front the region of the value. Where they end.
#[inline(never)]
fn put_with_region(window: &[u8], head: &DataHead, value: &SubdivisionValue, to: &mut [u8]) -> usize
    requires ascends { head.now.front.end ≤ head.now.end }
    requires inside { head.now.end + 16 ≤ length window.now }
    requires room { head.now.end + 16 ≤ length to.old }
    requires few { value.now.region ≤ 3 }
    requires value { value.now.at + value.now.region ≤ length window.now }
    ensures end { result ≡ head.now.end + 1
        + length (bytes_at window.now value.now.at value.now.region) }
    ensures put { take result to.new
        ≡ front_text head.now.front.script head.now.front.region (take head.now.front.end window.now)
        ++ 45 ∷ upper (bytes_at window.now value.now.at value.now.region)
        ++ lower (bytes_at window.now head.now.front.end (head.now.end - head.now.front.end)) }
{
    let front = head.front.end;
    put_front(window, &head.front, front, to);
    to[front] = b'-';
    let start = front + 1;
    let behind = start + value.region;
    let region = region_of(window, value).to_bytes();
    to[start..behind].copy_from_slice(&region[..value.region]);
    let more = head.end - front;
    copy_lower(&window[front..], more, &mut to[behind..behind + more]);
    behind + more
}

// Writes the keyword from `start` on. Where it ends.
#[inline(always)]
fn put_keyword(window: &[u8], value: &SubdivisionValue, to: &mut [u8], start: usize) -> usize
    requires inside { value.now.at + value.now.len + 16 ≤ length window.now }
    requires room { start + 6 + value.now.len ≤ length to.old }
    ensures end { result ≡ start + 6 + value.now.len }
    ensures put { take result to.new ≡ take start to.old
        ++ codes "-u-sd-" ++ lower (bytes_at window.now value.now.at value.now.len) }
{
    let from = start + 6;
    to[start..from].copy_from_slice(b"-u-sd-");
    let end = from + value.len;
    copy_lower(&window[value.at..], value.len, &mut to[from..end]);
    end
}

// Writes a head and a subdivision. Where they end.
#[inline(always)]
fn write_named(text: Window<'_>, head: &DataHead, value: &SubdivisionValue, to: &mut [u8]) -> usize
    requires room { length text.bytes.now ≤ length to.old }
    requires value { (d : DataLocale)
        × HasValue text.bytes.now (length text.bytes.now - 16) head.now value.now d }
    ensures few { result + 12 ≤ length text.entry.bytes.now }
    ensures put { (d : DataLocale)
        → HasValue text.entry.bytes.now (length text.entry.bytes.now - 16) head.now value.now d
        → take result to.new ≡ data_text d }
{
    let window = text.bytes;
    let front = head.front.end;
    let start = region_start(window, front);
    if start == front {
        let end = put_with_region(window, head, value, to);
        if is_whole(window, value) {
            return end;
        }
        return put_keyword(window, value, to, end);
    }
    put_front(window, &head.front, head.end, to);
    let region = ShortPiece::of(&window[start..front])
        .unwrap()
        .to_ascii_uppercase();
    let is_same = region == region_of(window, value);
    if !is_same || is_whole(window, value) {
        return head.end;
    }
    put_keyword(window, value, to, head.end)
}

/// Writes the normal text of a text as a data locale. Up to sixteen bytes more are stored behind it.
#[inline(never)]
pub(crate) fn write_data(text: Window<'_>, to: &mut [u8]) -> Written
    requires begins { BeginsWithLanguage (text_in text) }
    requires room { length text.bytes.now ≤ length to.old }
    ensures written { IsNormalWritten Mode.Data (text_in text.entry) to.new result }
    ensures some { result ≢ Written.Nothing }
{
    match read_data(text.bytes, text.len()) {
        Data::Head(head) => {
            let end = head.end;
            put_front(text.bytes, &head.front, end, to);
            Written::Normal(end)
        }
        Data::Named(head, value) => { Written::Normal(write_named(text, &head, &value, to)) }
        Data::Refused(error) => Written::refused(error),
    }
}
