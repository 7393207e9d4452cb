//! A line of text in place, and how one is put together.

ghost use Rattle.std.specs.Prelude.{◌≡◌, ◌+◌, ◌<◌, ◌≤◌, [], ◌∷◌, ◌++◌, length, decimal};

use crate::bytes::put;
use std::marker::Model;

/// A text has at most so many bytes.
pub const LONGEST_TEXT: usize = 128;

/// The base of decimal numbers.
const TEN: u128 = 10;

/// A line to be said, of at most 128 bytes. They stand in place: a text takes no memory. Contracts see it as
/// the list of its bytes.
#[derive(Debug, Drop)]
pub struct Text {
    /// The bytes, and behind them what is left of the room.
    room: [u8; LONGEST_TEXT],
    /// How many bytes the text has.
    end: usize,
}

impl Model for Text {
    ghost use Rattle.std.specs.Prelude.{ℕ, ◌≤◌, List, take};
    ghost use Rattle.nb_format.specs.declared.text.TheConstants.{LONGEST_TEXT};

    ghost Value = { List ℕ };

    ghost view = { λ text. take text.end text.room };

    ghost invariant = { λ text. text.end ≤ LONGEST_TEXT };
}

impl Text {
    /// The bytes.
    pub fn bytes(&self) -> &[u8]
        ensures value { result.now ≡ self.now }
        ensures short { length result.now ≤ 128 }
    {
        &self.room[..self.end]
    }

    /// The text of one piece.
    pub(crate) fn of(piece: &[u8]) -> Text
        requires { length piece.now ≤ LONGEST_TEXT }
        ensures value { result ≡ piece.now }
        ensures length { length result ≡ length piece.now }
    {
        let empty = Text {
            room: [0; LONGEST_TEXT],
            end: 0,
        };
        empty.then(piece)
    }

    /// The text with a piece behind it.
    pub(crate) fn then(self, piece: &[u8]) -> Text
        requires { length self + length piece.now ≤ LONGEST_TEXT }
        ensures value { result ≡ self ++ piece.now }
        ensures length { length result ≡ length self + length piece.now }
    {
        let Text { mut room, end } = self;
        put(&mut room, end, piece);
        Text {
            room,
            end: end + piece.len(),
        }
    }

    /// The text with a number behind it, in decimal without leading zeros.
    pub(crate) fn number(self, number: u64) -> Text
        requires { length self + length (decimal number) ≤ LONGEST_TEXT }
        ensures value { result ≡ self ++ decimal number }
        ensures length { length result ≡ length self + length (decimal number) }
    {
        self.wide_number(u128::from(number))
    }

    /// The text with a number of up to 128 bits behind it, in decimal without leading zeros.
    pub(crate) fn wide_number(self, number: u128) -> Text
        requires { length self + length (decimal number) ≤ LONGEST_TEXT }
        ensures value { result ≡ self ++ decimal number }
        ensures length { length result ≡ length self + length (decimal number) }
    {
        if number < TEN {
            return self.digit(number as u8);
        }
        self.wide_number(number / TEN).digit((number % TEN) as u8)
    }

    /// The text with a digit behind it.
    fn digit(self, digit: u8) -> Text
        requires small { digit < 10 }
        requires room { length self < LONGEST_TEXT }
        ensures value { result ≡ self ++ (48 + digit) ∷ [] }
        ensures length { length result ≡ length self + 1 }
    {
        self.then(&[b'0' + digit])
    }
}

#[cfg(test)]
mod tests;
