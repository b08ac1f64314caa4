//! Text as it is shown in a terminal.
ghost use Rattle.std.specs.Prelude.{◌≡◌, ◌<◌, ◌++◌, OnOk, IfOk, IfErr, string_bytes};
ghost use Rattle.std.specs.Prelude.{replicate};
ghost use Rattle.rowan_lines.specs.Pictures.{is_unshown, shown_as, picture, pictured};

use rowan_green::Fault;
use std::alloc::Global;

/// The text with four spaces for each tab, and a picture for each other control character.
pub(crate) fn pictured(alloc: Global, text: &str) -> Result<String, Fault>
    ensures ok { IfOk result (λ shown. string_bytes shown ≡ pictured text.now) }
    ensures err { IfErr result (λ e. e ≡ Fault.Memory) }
{
    let mut shown = String::new(alloc);
    push_pictured(&mut shown, text)?;
    Ok(shown)
}

/// Appends the text with four spaces for each tab, and a picture for each other control character.
pub(crate) fn push_pictured(out: &mut String, text: &str) -> Result<(), Fault>
    ensures ok { OnOk result (string_bytes out.new ≡ string_bytes out.old ++ pictured text.now) }
    ensures err { IfErr result (λ e. e ≡ Fault.Memory) }
{
    let mut rest = text.chars();
    while let Some(character) = rest.next() {
        push_picture(out, character)?;
    }
    Ok(())
}

fn push_picture(out: &mut String, character: char) -> Result<(), Fault>
    ensures ok { OnOk result (string_bytes out.new ≡ string_bytes out.old ++ picture character) }
    ensures err { IfErr result (λ e. e ≡ Fault.Memory) }
{
    if character == '\t' {
        out.push_str("    ")?;
        return Ok(());
    }
    out.push(shown_as(character))?;
    Ok(())
}

/// The character that is shown for this one.
fn shown_as(character: char) -> char
    ensures { result ≡ shown_as character }
{
    let code = character as u32;
    if code < 0x20 {
        return char::from_u32(0x2400 + code).unwrap_or('\u{fffd}');
    }
    if code == 0x7f {
        return '\u{2421}';
    }
    if is_unshown(code) {
        return '\u{fffd}';
    }
    character
}

/// Whether the character is a control character of Latin-1, or turns the direction of the text.
fn is_unshown(code: u32) -> bool
    ensures { result ≡ is_unshown code }
{
    (0x80..=0x9f).contains(&code)
        || (0x202a..=0x202e).contains(&code)
        || (0x2066..=0x2069).contains(&code)
}

/// Appends the character of ASCII so many times.
pub(crate) fn push_times(out: &mut String, character: char, count: usize) -> Result<(), Fault>
    ensures ok { character < 128 → OnOk result
        (string_bytes out.new ≡ string_bytes out.old ++ replicate count character) }
    ensures err { IfErr result (λ e. e ≡ Fault.Memory) }
{
    for place in 0..count {
        let _ = place;
        out.push(character)?;
    }
    Ok(())
}
