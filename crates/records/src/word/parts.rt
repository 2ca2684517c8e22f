// A word taken apart and put together, and a list of words held against a layout.
ghost use Rattle.std.specs.Prelude.{◌≡◌, ◌==◌, ◌≤◌, ◌+◌, ◌*◌, ◌^◌, ◌<◌};
ghost use Rattle.records.specs.Words.{kind, payload, word, bits, signed, kind_number};

use super::{Kind, Payload};

impl Kind {
    // Whether a word is of this kind.
    pub fn is_of(self, w: u32) -> bool
        ensures { result ≡ (kind w == kind_number self) }
    {
        w >> 28 == self as u32
    }
}

impl Payload {
    // The payload of a word.
    pub fn of_word(w: u32) -> Payload
        ensures { result.bits ≡ payload w }
    {
        Payload {
            bits: w % (1 << 28),
        }
    }

    // Three fields: bits 27 to 20, 19 to 10 and 9 to 0.
    pub(crate) fn packed(high: u8, middle: u16, low: u16) -> Payload
        requires middle_fits { middle < 2 ^ 10 }
        requires low_fits { low < 2 ^ 10 }
        ensures { result.bits ≡ high * 2 ^ 20 + middle * 2 ^ 10 + low }
    {
        Payload {
            bits: (u32::from(high) << 20) + (u32::from(middle) << 10) + u32::from(low),
        }
    }

    // The word of a kind that holds the payload.
    pub(crate) fn under(self, kind: Kind) -> u32
        ensures { result ≡ word kind self.bits }
    {
        kind as u32 * (1 << 28) + self.bits
    }

    // As many bits as the width, from the bit `LOW` up.
    pub(crate) fn field<const LOW: u32, const WIDTH: u32>(self) -> u16
        requires low { LOW ≤ 27 }
        requires width { WIDTH ≤ 10 }
        ensures { result ≡ bits LOW WIDTH self.bits }
    {
        ((self.bits >> LOW) % (1 << WIDTH)) as u16
    }

    // The payload as two's complement on 28 bits.
    pub fn signed(self) -> i32
        ensures { result ≡ signed self.bits }
    {
        if self.bits < 1 << 27 {
            self.bits as i32
        } else {
            self.bits as i32 - (1 << 28)
        }
    }
}
