//! Escapes.
ghost use Rattle.std.specs.Prelude.{◌≡◌};
ghost use Rattle.lookahead.specs.Ahead.{codes, past};
ghost use Rattle.syntax.specs.Escapes.{escape as escaped, escape_value, hex_escape};

use codepoint::class::{hex_value, is_hex_digit, is_whitespace};
use codepoint::starts::EOF;
use lookahead::Lookahead;

const REPLACEMENT: u32 = 0xfffd;

/// What an escape gives, from behind its backslash.
#[tactic(auto, unfolding(syntax::specs::Escapes::escape))]
pub fn escape<L: Lookahead>(input: &mut L) -> u32
    ensures value { result ≡ (escaped (codes (L.Lookahead.rest input.old))).0 }
    ensures left { L.Lookahead.rest input.new ≡ past (escaped (codes (L.Lookahead.rest input.old))).1 (L.Lookahead.rest input.old) }
{
    let c = input.peek().first;
    if c == EOF {
        return REPLACEMENT;
    }
    if is_hex_digit(c) {
        return hex_escape(input);
    }
    input.bump();
    c
}

/// At most six hex digits, with one whitespace behind them if there is one.
#[tactic(auto, using(crate::proofs::Hexes::five_fit, crate::proofs::Hexes::hex_is_small), unfolding(syntax::specs::Escapes::hex_escape, codepoint::specs::Classes::hex_value_if_any))]
fn hex_escape<L: Lookahead>(input: &mut L) -> u32
    ensures value { result ≡ (hex_escape 6 0 0 (codes (L.Lookahead.rest input.old))).0 }
    ensures left { L.Lookahead.rest input.new ≡ past (hex_escape 6 0 0 (codes (L.Lookahead.rest input.old))).1 (L.Lookahead.rest input.old) }
{
    let mut value = 0;
    for _ in 0..6u32 {
        let Some(digit) = hex_value(input.peek().first) else {
            break;
        };
        value = value * 16 + digit;
        input.bump();
    }
    if is_whitespace(input.peek().first) {
        input.bump();
    }
    code_point_of(value)
}

/// The code point of an escape's number: U+FFFD for zero, a surrogate or more than U+10FFFF.
#[tactic(auto, unfolding(syntax::specs::Escapes::escape_value))]
fn code_point_of(value: u32) -> u32
    ensures { result ≡ escape_value value }
{
    match value {
        1..=0xd7ff | 0xe000..=0x10ffff => value,
        _ => REPLACEMENT,
    }
}
