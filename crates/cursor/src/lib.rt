// Bit codes read by a cursor that is lent and moved: src/bitcursor.rs of dwg-rs; section 2 of the ODA's specification.
// Each reader calls the code's call by value at the cursor's place, moves the cursor to where that ends and answers the rest.
// specs/ promises, for every cursor and every payload: the answer of the call by value, and the place where that call ends.
#![tactic(auto)]

ghost use Rattle.std.specs.Prelude.{◌≡◌, ◌-◌, ◌*◌, length};
ghost use Rattle.std.specs.Float.Ieee.{of_bits, to_bits};
ghost use Rattle.std.specs.Float.{binary64};
ghost use Rattle.bitcursor.specs.Codes.{B, BB, «3B», RC, RS, RL, RD, BS, BL, signed_BS, signed_BL};
ghost use Rattle.bitcursor.specs.Doubles.{BD, DD};
ghost use Rattle.bitcursor.specs.Handles.{BLL, HANDLE};
ghost use Rattle.bitcursor.specs.Answers.{outcome, value_as};
ghost use Rattle.cursor.specs.Cursors.{saturated, place_of, cursor_at, read_at, Reads};

use bitcursor::{Handle, Reading, Refusal};

// The byte and, in it, the bit at which the next reading starts; 0 is a byte's top bit. Any two numbers are a cursor.
#[derive(Clone, Copy, Debug, PartialEq, Eq)]
pub struct BitCursor {
    pub byte_pos: usize,
    pub bit_pos: usize,
}

// How many bits a payload has, as far as a usize can say.
pub fn total_bits(bytes: &[u8]) -> usize
    ensures { result ≡ saturated (8 * length bytes.now) }
{
    bytes.len().saturating_mul(8)
}

impl BitCursor {
    // The cursor at a place.
    pub fn at(place: usize) -> BitCursor
        ensures { result ≡ cursor_at place }
    {
        BitCursor {
            byte_pos: place / 8,
            bit_pos: place % 8,
        }
    }

    // The place at which the cursor stands; a cursor that is meant to stand past the last place that a usize can say stands there.
    pub fn position_bits(self) -> usize
        ensures { result ≡ place_of self }
    {
        self.byte_pos.saturating_mul(8).saturating_add(self.bit_pos)
    }

    // How many bits are left from the cursor to the payload's end; 0 at the end and past it.
    pub fn remaining_bits(self, bytes: &[u8]) -> usize
        ensures { result ≡ saturated (8 * length bytes.now) - place_of self }
    {
        total_bits(bytes).saturating_sub(self.position_bits())
    }

    // Moves to where a reading ended, behind the value or at the refusal's place, and answers the rest.
    fn follow<T>(&mut self, reading: Reading<T>) -> Result<T, Refusal>
        ensures { Reads (outcome reading) result self.new }
    {
        match reading {
            Ok((value, place)) => {
                *self = BitCursor::at(place);
                Ok(value)
            }
            Err(refused) => {
                *self = BitCursor::at(refused.place);
                Err(refused.refusal)
            }
        }
    }

    // One method for each code, as the Rust has them: each is named for its code and promises that code, and what they share is `follow`.

    // B: one bit.
    pub fn read_b(&mut self, bytes: &[u8]) -> Result<bool, Refusal>
        ensures { Reads (read_at B bytes.now self.old) result self.new }
    {
        self.follow(bit_codes::read_b(bytes, self.position_bits()))
    }

    // BB: two bits.
    pub fn read_bb(&mut self, bytes: &[u8]) -> Result<u64, Refusal>
        ensures { Reads (read_at BB bytes.now self.old) result self.new }
    {
        self.follow(bit_codes::read_bb(bytes, self.position_bits()))
    }

    // 3B: three bits.
    pub fn read_3b(&mut self, bytes: &[u8]) -> Result<u64, Refusal>
        ensures { Reads (read_at «3B» bytes.now self.old) result self.new }
    {
        self.follow(bit_codes::read_3b(bytes, self.position_bits()))
    }

    // RC: one byte.
    pub fn read_rc(&mut self, bytes: &[u8]) -> Result<u64, Refusal>
        ensures { Reads (read_at RC bytes.now self.old) result self.new }
    {
        self.follow(bit_codes::read_rc(bytes, self.position_bits()))
    }

    // RS: two bytes, signed.
    pub fn read_rs(&mut self, bytes: &[u8]) -> Result<i16, Refusal>
        ensures { Reads (read_at RS bytes.now self.old) result self.new }
    {
        self.follow(bit_codes::read_rs(bytes, self.position_bits()))
    }

    // RL: four bytes.
    pub fn read_rl(&mut self, bytes: &[u8]) -> Result<u64, Refusal>
        ensures { Reads (read_at RL bytes.now self.old) result self.new }
    {
        self.follow(bit_codes::read_rl(bytes, self.position_bits()))
    }

    // RD: the double of eight bytes.
    pub fn read_rd(&mut self, bytes: &[u8]) -> Result<f64, Refusal>
        ensures { Reads (value_as (of_bits binary64) (read_at RD bytes.now self.old)) result self.new }
    {
        self.follow(bit_codes::read_rd(bytes, self.position_bits()))
    }

    // BS, signed.
    pub fn read_bs(&mut self, bytes: &[u8]) -> Result<i16, Refusal>
        ensures { Reads (read_at signed_BS bytes.now self.old) result self.new }
    {
        self.follow(bit_codes::read_bs(bytes, self.position_bits()))
    }

    // BS, unsigned.
    pub fn read_bs_u(&mut self, bytes: &[u8]) -> Result<u64, Refusal>
        ensures { Reads (read_at BS bytes.now self.old) result self.new }
    {
        self.follow(bit_codes::read_bs_u(bytes, self.position_bits()))
    }

    // BL, signed.
    pub fn read_bl(&mut self, bytes: &[u8]) -> Result<i32, Refusal>
        ensures { Reads (read_at signed_BL bytes.now self.old) result self.new }
    {
        self.follow(bit_codes::read_bl(bytes, self.position_bits()))
    }

    // BL, unsigned.
    pub fn read_bl_u(&mut self, bytes: &[u8]) -> Result<u64, Refusal>
        ensures { Reads (read_at BL bytes.now self.old) result self.new }
    {
        self.follow(bit_codes::read_bl_u(bytes, self.position_bits()))
    }

    // BLL: three bits, and that many bytes.
    pub fn read_bll(&mut self, bytes: &[u8]) -> Result<u64, Refusal>
        ensures { Reads (read_at BLL bytes.now self.old) result self.new }
    {
        self.follow(bit_codes::read_bll(bytes, self.position_bits()))
    }

    // BD.
    pub fn read_bd(&mut self, bytes: &[u8]) -> Result<f64, Refusal>
        ensures { Reads (value_as (of_bits binary64) (read_at BD bytes.now self.old)) result self.new }
    {
        self.follow(bit_codes::read_bd(bytes, self.position_bits()))
    }

    // DD: a double with a default.
    pub fn read_dd(&mut self, bytes: &[u8], default: f64) -> Result<f64, Refusal>
        ensures { Reads (value_as (of_bits binary64) (read_at (DD (to_bits binary64 default)) bytes.now self.old)) result self.new }
    {
        self.follow(bit_codes::read_dd(bytes, self.position_bits(), default))
    }

    // A handle: code, counter, and that many bytes with the high one first.
    pub fn read_handle(&mut self, bytes: &[u8]) -> Result<Handle, Refusal>
        ensures { Reads (read_at HANDLE bytes.now self.old) result self.new }
    {
        self.follow(bit_codes::read_handle(bytes, self.position_bits()))
    }
}
