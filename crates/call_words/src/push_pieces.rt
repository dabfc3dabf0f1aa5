//! Writers of single words, one for each kind of word. Each adds the word behind a space.
ghost use Rattle.std.specs.Prelude.{◌≡◌, ◌<◌, [], ◌∷◌, IfSome, string_bytes};
ghost use Rattle.std.specs.Fmt.{decimal};
ghost use Rattle.az_base.specs.Texts.{reg_text, root_text, weak_text, key_text, id_text};
ghost use Rattle.call_words.specs.Spacing.{Adds, spread};
ghost use Rattle.call_words.specs.Ranges.{IsReg, IsSmall, IsPlace, IsNumber, IsThread, IsId};

use az_base::{BlockId, Key, Reg, RootNo, ThreadNo, WeakNo};
use itoa::Buffer;
use std::alloc::AllocError;

/// Adds a numeral. Most numerals of a history have one digit.
pub fn push_decimal(out: &mut String, number: u64) -> Result<(), AllocError>
    ensures adds { Adds (string_bytes out.old) (string_bytes out.new) result (decimal number) }
    ensures range { IsNumber number }
{
    if number < 10 {
        push_digit(out, number as u8)
    } else {
        push_digits(out, number)
    }
}

/// Adds a digit.
fn push_digit(out: &mut String, digit: u8) -> Result<(), AllocError>
    requires { digit < 10 }
    ensures { Adds (string_bytes out.old) (string_bytes out.new) result (decimal digit) }
{
    out.push(char::from(b'0' + digit))
}

/// Adds a numeral of any length.
#[inline(never)]
fn push_digits(out: &mut String, number: u64) -> Result<(), AllocError>
    ensures { Adds (string_bytes out.old) (string_bytes out.new) result (decimal number) }
{
    let mut buffer = Buffer::new();
    out.push_str(buffer.format(number))
}

/// Adds the number of a thread, with no space before it.
pub fn push_thread(out: &mut String, thread: ThreadNo) -> Result<(), AllocError>
    ensures adds { Adds (string_bytes out.old) (string_bytes out.new) result (decimal thread) }
    ensures range { IsThread thread }
{
    push_decimal(out, u64::from(thread.get()))
}

/// Ends a line.
pub fn push_feed(out: &mut String) -> Result<(), AllocError>
    ensures { Adds (string_bytes out.old) (string_bytes out.new) result (10 ∷ []) }
{
    out.push('\n')
}

/// Adds a fixed word.
#[inline(always)]
pub fn push_word(out: &mut String, word: &str) -> Result<(), AllocError>
    ensures { Adds (string_bytes out.old) (string_bytes out.new) result (32 ∷ word.now) }
{
    out.push(' ')?;
    out.push_str(word)
}

pub fn push_number(out: &mut String, number: u64) -> Result<(), AllocError>
    ensures adds { Adds (string_bytes out.old) (string_bytes out.new) result (32 ∷ decimal number) }
    ensures range { IsNumber number }
{
    out.push(' ')?;
    push_decimal(out, number)
}

/// Adds a number behind its name.
#[inline(always)]
pub fn push_named(out: &mut String, name: &str, number: u64) -> Result<(), AllocError>
    ensures adds { Adds (string_bytes out.old) (string_bytes out.new) result (spread (name.now ∷ decimal number ∷ [])) }
    ensures range { IsNumber number }
{
    push_word(out, name)?;
    push_number(out, number)
}

pub fn push_place(out: &mut String, at: u32) -> Result<(), AllocError>
    ensures adds { Adds (string_bytes out.old) (string_bytes out.new) result (32 ∷ decimal at) }
    ensures range { IsPlace at }
{
    push_number(out, u64::from(at))
}

#[tactic(auto, unfolding(az_base::specs::Texts::reg_text))]
pub fn push_register(out: &mut String, reg: Reg) -> Result<(), AllocError>
    ensures adds { Adds (string_bytes out.old) (string_bytes out.new) result (32 ∷ reg_text reg) }
    ensures range { IsReg reg }
{
    let number = reg.get();
    match short_register(number) {
        Some(word) => out.push_str(word),
        None => {
            out.push_str(" r")?;
            push_decimal(out, u64::from(number))
        }
    }
}

/// A register of one digit, behind a space.
#[tactic(auto, unfolding(az_base::specs::Texts::reg_text))]
fn short_register(number: u32) -> Option<&'static str>
    ensures { IfSome result (λ word. word.now ≡ 32 ∷ reg_text number) }
{
    match number {
        0 => Some(" r0"),
        1 => Some(" r1"),
        2 => Some(" r2"),
        3 => Some(" r3"),
        4 => Some(" r4"),
        5 => Some(" r5"),
        6 => Some(" r6"),
        7 => Some(" r7"),
        8 => Some(" r8"),
        9 => Some(" r9"),
        _ => None,
    }
}

#[tactic(auto, unfolding(az_base::specs::Texts::root_text))]
pub fn push_root(out: &mut String, root: RootNo) -> Result<(), AllocError>
    ensures adds { Adds (string_bytes out.old) (string_bytes out.new) result (32 ∷ root_text root.0) }
    ensures range { IsSmall root.0 }
{
    out.push_str(" g")?;
    push_decimal(out, u64::from(root.0))
}

#[tactic(auto, unfolding(az_base::specs::Texts::weak_text))]
pub fn push_weak_root(out: &mut String, root: WeakNo) -> Result<(), AllocError>
    ensures adds { Adds (string_bytes out.old) (string_bytes out.new) result (32 ∷ weak_text root.0) }
    ensures range { IsSmall root.0 }
{
    out.push_str(" w")?;
    push_decimal(out, u64::from(root.0))
}

#[tactic(auto, unfolding(az_base::specs::Texts::key_text))]
pub fn push_key(out: &mut String, key: Key) -> Result<(), AllocError>
    ensures adds { Adds (string_bytes out.old) (string_bytes out.new) result (32 ∷ key_text key.0) }
    ensures range { IsSmall key.0 }
{
    out.push_str(" k")?;
    push_decimal(out, u64::from(key.0))
}

#[tactic(auto, unfolding(az_base::specs::Texts::id_text))]
pub fn push_id(out: &mut String, id: BlockId) -> Result<(), AllocError>
    ensures adds { Adds (string_bytes out.old) (string_bytes out.new) result (32 ∷ id_text id) }
    ensures range { IsId id }
{
    out.push(' ')?;
    push_thread(out, id.thread)?;
    out.push('.')?;
    push_decimal(out, u64::from(id.serial))
}
