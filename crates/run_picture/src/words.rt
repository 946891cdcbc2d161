//! Text of others as text of XML.

ghost use Rattle.std.specs.Prelude.{◌≡◌, ◌++◌, OnOk, string_bytes};
ghost use Rattle.run_picture.specs.Words.{escaped, escaped_byte, name_at, name_text, title_text};

use std::alloc::AllocError;
use std::fmt::Write;

/// What is told may fail where an allocation does; then a part of the text may stand in the string.
pub(crate) type Told = Result<(), AllocError>;

/// Appends a text of others: what XML means is named, and what isn't a printing character of ASCII is `?`, but for a line feed.
pub(crate) fn push_escaped(out: &mut String, text: &str) -> Told
    ensures { OnOk result (string_bytes out.new ≡ string_bytes out.old ++ escaped text.now) }
{
    for byte in text.as_bytes() {
        push_byte(out, *byte)?;
    }
    Ok(())
}

#[tactic(auto, unfolding(crate::specs::Words::escaped_byte))]
fn push_byte(out: &mut String, byte: u8) -> Told
    ensures { OnOk result (string_bytes out.new ≡ string_bytes out.old ++ escaped_byte byte) }
{
    match byte {
        b'&' => out.push_str("&amp;"),
        b'<' => out.push_str("&lt;"),
        b'>' => out.push_str("&gt;"),
        b'\'' => out.push_str("&apos;"),
        b'"' => out.push_str("&quot;"),
        b'\n' | 32..=126 => out.push(char::from(byte)),
        _ => out.push_str("?"),
    }
}

/// Appends what a pointer on the shape around it is told.
pub(crate) fn push_title(out: &mut String, title: &str) -> Told
    ensures { OnOk result (string_bytes out.new ≡ string_bytes out.old ++ title_text title.now) }
{
    out.push_str("<title>")?;
    push_escaped(out, title)?;
    out.push_str("</title>")
}

/// Appends a name to the left of what it names, at this height.
pub(crate) fn print_name(out: &mut String, y: u64, name: &str) -> Told
    ensures { OnOk result (string_bytes out.new ≡ string_bytes out.old ++ name_text y name.now) }
{
    print_name_at(out, y)?;
    push_escaped(out, name)?;
    out.push_str("</text>\n")
}

#[tactic(auto, unfolding(crate::specs::Words::name_at))]
fn print_name_at(out: &mut String, y: u64) -> Told
    ensures { OnOk result (string_bytes out.new ≡ string_bytes out.old ++ name_at y) }
{
    write!(out, "<text class='name' x='-14' y='{y}' dy='4'>")
}
