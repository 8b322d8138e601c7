//! Bit vectors of 1 to 128 bits, as Lean 4's `BitVec`: one machine number holds the whole vector, and each
//! operator is arithmetic modulo two to the width, so that terms have values without lists of bits.
#![tactic(auto)]

ghost use Rattle.std.specs.Prelude.{◌≡◌, ◌+◌, ◌-◌, ◌*◌, ◌%◌, ◌^◌, ◌≤◌, ◌<◌, ◌/◌, nat_le, unsigned_abs, if◌then◌else◌};
ghost use Rattle.bv_value.specs.BitVector.{of_number, signed, IsBitVector};
ghost use Rattle.bv_value.specs.Operations as is;
ghost use Rattle.bv_value.specs.Signs.{signed_quotient, signed_by, floor_magnitude as magnitude_of, signed_less as less_by};

use std::marker::Model;

/// A bit vector: a width of 1 to 128 bits, and a number below two to that width. Lean 4 `BitVec w`.
///
/// Contracts see its width and its number. Each method gives what its definition in `specs/Operations.antt`
/// says, and none can fail. Each takes a constant number of machine steps.
#[derive(Clone, Copy, Debug, PartialEq, Eq)]
pub struct Bv {
    width: u8,
    number: u128,
}

impl Model for Bv {
    ghost use Rattle.bv_value.specs.BitVector.{BitVector, IsBitVector};

    ghost Value = { BitVector };

    ghost view = { λ b. record { width = b.width; number = b.number } };

    ghost inverse = { λ v. record { width = v.width; number = v.number } };

    ghost invariant = { λ b. IsBitVector (record { width = b.width; number = b.number }) };
}

// `n` modulo two to the width.
fn reduced(width: u8, n: u128) -> u128
    requires { width ≤ 128 }
    ensures { result ≡ n % 2 ^ width }
{
    if width < 128 { n % (1 << width) } else { n }
}

// The greatest number of the width.
fn greatest(width: u8) -> u128
    requires { width ≤ 128 }
    ensures { result + 1 ≡ 2 ^ width }
{
    if width < 128 {
        (1 << width) - 1
    } else {
        u128::MAX
    }
}

// The magnitude of the remainder that has the divisor's sign.
fn floor_magnitude(dividend_negative: bool, divisor_negative: bool, x: u128, y: u128) -> u128
    requires { 0 < y }
    ensures { result ≡ magnitude_of dividend_negative divisor_negative x y }
{
    let remainder = x % y;
    if dividend_negative == divisor_negative {
        remainder
    } else {
        (y - remainder) % y
    }
}

// The signed order, from the signs and the unsigned order.
fn signed_less(left_negative: bool, right_negative: bool, less: bool) -> bool
    ensures { result ≡ less_by left_negative right_negative less }
{
    if left_negative == right_negative {
        less
    } else {
        left_negative
    }
}

impl Bv {
    /// The vector of this many bits whose number is `number` modulo two to the width. Lean 4 `BitVec.ofNat`.
    pub fn new(width: u8, number: u128) -> Bv
        requires positive { 1 ≤ width }
        requires at_most_128 { width ≤ 128 }
        ensures { result ≡ of_number width number }
    {
        Bv {
            width,
            number: reduced(width, number),
        }
    }

    // A number that is below two to the width.
    fn exact(width: u8, number: u128) -> Bv
        requires positive { 1 ≤ width }
        requires at_most_128 { width ≤ 128 }
        requires below { number < 2 ^ width }
        ensures { result ≡ record { width = width; number = number } }
    {
        Bv { width, number }
    }

    /// How many bits the vector has, 1 to 128.
    pub fn width(&self) -> u8
        ensures value { result ≡ self.now.width }
        ensures vector { IsBitVector self.now }
    {
        self.width
    }

    /// The unsigned value, below two to the width. Lean 4 `BitVec.toNat`.
    pub fn number(&self) -> u128
        ensures value { result ≡ self.now.number }
        ensures vector { IsBitVector self.now }
    {
        self.number
    }

    /// Each bit turned over. Lean 4 `BitVec.not`.
    pub fn not(&self) -> Bv
        ensures { result ≡ is.bitwise_not self.now }
    {
        Bv::exact(self.width, greatest(self.width) - self.number)
    }

    /// The number that adds up to 0 with this one, modulo two to the width. Lean 4 `BitVec.neg`.
    #[tactic(auto, using(crate::proofs::Powers::negated))]
    pub fn neg(&self) -> Bv
        ensures { result ≡ is.neg self.now }
    {
        if self.number == 0 {
            *self
        } else {
            Bv::exact(self.width, greatest(self.width) - self.number + 1)
        }
    }

    /// Bit by bit: set where both are. Lean 4 `BitVec.and`.
    #[tactic(auto, using(crate::proofs::Bits::and_bits))]
    pub fn and(&self, other: &Bv) -> Bv
        requires { self.now.width ≡ other.now.width }
        ensures { result ≡ is.bitwise_and self.now other.now }
    {
        Bv::exact(self.width, self.number & other.number)
    }

    /// Bit by bit: set where one or both are. Lean 4 `BitVec.or`.
    #[tactic(auto, using(crate::proofs::Powers::or_fits, crate::proofs::Bits::or_bits))]
    pub fn or(&self, other: &Bv) -> Bv
        requires { self.now.width ≡ other.now.width }
        ensures { result ≡ is.bitwise_or self.now other.now }
    {
        Bv::exact(self.width, self.number | other.number)
    }

    /// Bit by bit: set where exactly one is. Lean 4 `BitVec.xor`.
    #[tactic(auto, using(crate::proofs::Powers::xor_fits, crate::proofs::Bits::xor_bits))]
    pub fn xor(&self, other: &Bv) -> Bv
        requires { self.now.width ≡ other.now.width }
        ensures { result ≡ is.bitwise_xor self.now other.now }
    {
        Bv::exact(self.width, self.number ^ other.number)
    }

    /// The sum modulo two to the width. Lean 4 `BitVec.add`.
    #[tactic(auto, using(crate::proofs::Powers::shorter_wide))]
    pub fn add(&self, other: &Bv) -> Bv
        requires { self.now.width ≡ other.now.width }
        ensures { result ≡ is.add self.now other.now }
    {
        Bv::new(self.width, self.number.wrapping_add(other.number))
    }

    /// The difference modulo two to the width. Lean 4 `BitVec.sub`.
    #[tactic(auto, using(crate::proofs::Powers::wrapped))]
    pub fn sub(&self, other: &Bv) -> Bv
        requires { self.now.width ≡ other.now.width }
        ensures { result ≡ is.sub self.now other.now }
    {
        if other.number <= self.number {
            Bv::exact(self.width, self.number - other.number)
        } else {
            Bv::exact(
                self.width,
                greatest(self.width) - (other.number - self.number) + 1,
            )
        }
    }

    /// The product modulo two to the width. Lean 4 `BitVec.mul`.
    #[tactic(auto, using(crate::proofs::Powers::shorter_wide))]
    pub fn mul(&self, other: &Bv) -> Bv
        requires { self.now.width ≡ other.now.width }
        ensures { result ≡ is.mul self.now other.now }
    {
        Bv::new(self.width, self.number.wrapping_mul(other.number))
    }

    /// The unsigned quotient rounded down, and 0 for the divisor 0. Lean 4 `BitVec.udiv`.
    pub fn udiv(&self, other: &Bv) -> Bv
        requires { self.now.width ≡ other.now.width }
        ensures { result ≡ is.udiv self.now other.now }
    {
        if other.number == 0 {
            Bv::exact(self.width, 0)
        } else {
            Bv::exact(self.width, self.number / other.number)
        }
    }

    /// The unsigned remainder, and `self` for the divisor 0. Lean 4 `BitVec.umod`.
    pub fn umod(&self, other: &Bv) -> Bv
        requires { self.now.width ≡ other.now.width }
        ensures { result ≡ is.umod self.now other.now }
    {
        if other.number == 0 {
            *self
        } else {
            Bv::exact(self.width, self.number % other.number)
        }
    }

    /// Moved up by `n` bits, with zeros from below; all zeros once `n` is the width or more. Lean 4 `BitVec.shiftLeft`.
    #[tactic(auto, using(crate::proofs::Powers::shorter_wide, crate::proofs::Powers::shifted_up))]
    pub fn shl_by(&self, n: u128) -> Bv
        ensures { result ≡ is.shl_by self.now n }
    {
        if n < u128::from(self.width) {
            Bv::new(self.width, self.number << n as u32)
        } else {
            Bv::exact(self.width, 0)
        }
    }

    /// Moved down by `n` bits, with zeros from above. Lean 4 `BitVec.ushiftRight`.
    #[tactic(auto, using(crate::proofs::Powers::shifted_out))]
    pub fn lshr_by(&self, n: u128) -> Bv
        ensures { result ≡ is.lshr_by self.now n }
    {
        if n < 128 {
            Bv::exact(self.width, self.number >> n as u32)
        } else {
            Bv::exact(self.width, 0)
        }
    }

    /// The bits of `self` above those of `other`. Lean 4 `BitVec.append`.
    #[tactic(auto, using(crate::proofs::Powers::above_wide, crate::proofs::Powers::beside, crate::proofs::Powers::beside_fits))]
    pub fn append(&self, other: &Bv) -> Bv
        requires { self.now.width + other.now.width ≤ 128 }
        ensures { result ≡ is.append self.now other.now }
    {
        let number = (self.number << other.width) + other.number;
        Bv::exact(self.width + other.width, number)
    }

    /// The `len` bits from bit `start` up, zeros past the top. Lean 4 `BitVec.extractLsb'`.
    #[tactic(auto, using(crate::proofs::Powers::shifted_out))]
    pub fn extract(&self, start: u128, len: u8) -> Bv
        requires positive { 1 ≤ len }
        requires at_most_128 { len ≤ 128 }
        ensures { result ≡ is.extract self.now start len }
    {
        if start < 128 {
            Bv::new(len, self.number >> start as u32)
        } else {
            Bv::exact(len, 0)
        }
    }

    /// The low `width` bits, with zeros above where there are fewer. Lean 4 `BitVec.setWidth`.
    pub fn set_width(&self, width: u8) -> Bv
        requires positive { 1 ≤ width }
        requires at_most_128 { width ≤ 128 }
        ensures { result ≡ is.set_width self.now width }
    {
        Bv::new(width, self.number)
    }

    /// Bit `n`, counted from the lowest, and false from the width on. Lean 4 `BitVec.getLsbD`.
    #[tactic(auto, using(crate::proofs::Powers::shifted_out))]
    pub fn bit(&self, n: u128) -> bool
        ensures { result ≡ is.bit self.now n }
    {
        n < 128 && (self.number >> n as u32) % 2 == 1
    }

    /// The top bit. Lean 4 `BitVec.msb`.
    pub fn msb(&self) -> bool
        ensures { result ≡ is.msb self.now }
    {
        self.bit(u128::from(self.width) - 1)
    }

    // Whether the signed value is below 0.
    #[tactic(auto, using(crate::proofs::Signs::half_test))]
    fn is_negative(&self) -> bool
        ensures value { result ≡ nat_le (2 ^ self.now.width / 2) self.now.number }
        ensures vector { IsBitVector self.now }
    {
        self.number > greatest(self.width) / 2
    }

    // The distance of the signed value from 0.
    fn magnitude(&self) -> u128
        ensures { result ≡ unsigned_abs (signed self.now) }
    {
        if self.is_negative() {
            greatest(self.width) - self.number + 1
        } else {
            self.number
        }
    }

    // The vector, negated where the result is below 0.
    fn signed_by(&self, negative: bool) -> Bv
        ensures { result ≡ signed_by negative self.now }
    {
        if negative { self.neg() } else { *self }
    }

    // The quotient of two numbers of these signs, from that of their magnitudes.
    fn signed_quotient(&self, dividend_negative: bool, divisor_negative: bool) -> Bv
        ensures { result ≡ signed_quotient dividend_negative divisor_negative self.now }
    {
        if dividend_negative != divisor_negative {
            self.neg()
        } else {
            *self
        }
    }

    /// The signed quotient rounded toward zero, and 0 for the divisor 0. Lean 4 `BitVec.sdiv`.
    pub fn sdiv(&self, other: &Bv) -> Bv
        requires { self.now.width ≡ other.now.width }
        ensures { result ≡ is.sdiv self.now other.now }
    {
        if other.number() == 0 {
            Bv::exact(self.width(), 0)
        } else {
            let quotient = self.magnitude() / other.magnitude();
            Bv::new(self.width(), quotient).signed_quotient(self.is_negative(), other.is_negative())
        }
    }

    /// The signed remainder with the sign of `self`, and `self` for the divisor 0. Lean 4 `BitVec.srem`.
    pub fn srem(&self, other: &Bv) -> Bv
        requires { self.now.width ≡ other.now.width }
        ensures { result ≡ is.srem self.now other.now }
    {
        if other.number() == 0 {
            *self
        } else {
            let remainder = self.magnitude() % other.magnitude();
            Bv::new(self.width(), remainder).signed_by(self.is_negative())
        }
    }

    /// The signed remainder with the divisor's sign, and `self` for the divisor 0. Lean 4 `BitVec.smod`.
    pub fn smod(&self, other: &Bv) -> Bv
        requires { self.now.width ≡ other.now.width }
        ensures { result ≡ is.smod self.now other.now }
    {
        if other.number() == 0 {
            *self
        } else {
            let magnitude = floor_magnitude(
                self.is_negative(),
                other.is_negative(),
                self.magnitude(),
                other.magnitude(),
            );
            Bv::new(self.width(), magnitude).signed_by(other.is_negative())
        }
    }

    /// The low `width` bits, with copies of the top bit above where there are fewer. Lean 4 `BitVec.signExtend`.
    pub fn sign_extend(&self, width: u8) -> Bv
        requires positive { 1 ≤ width }
        requires at_most_128 { width ≤ 128 }
        ensures { result ≡ is.sign_extend self.now width }
    {
        if self.is_negative() {
            self.not().set_width(width).not()
        } else {
            self.set_width(width)
        }
    }

    /// Whether the signed value is below that of `other`. Lean 4 `BitVec.slt`.
    pub fn slt(&self, other: &Bv) -> bool
        requires { self.now.width ≡ other.now.width }
        ensures { result ≡ is.slt self.now other.now }
    {
        signed_less(self.is_negative(), other.is_negative(), self.ult(other))
    }

    /// Moved down by `n` bits, with copies of the top bit from above. Lean 4 `BitVec.sshiftRight`.
    pub fn ashr_by(&self, n: u128) -> Bv
        ensures { result ≡ is.ashr_by self.now n }
    {
        if self.is_negative() {
            self.not().lshr_by(n).not()
        } else {
            self.lshr_by(n)
        }
    }

    // Rotates by less than the width.
    #[tactic(auto, using(crate::proofs::Powers::rotated_below))]
    fn rotated(&self, k: u8) -> Bv
        requires positive { 0 < k }
        requires below { k < self.now.width }
        ensures { result ≡ record self.now { number = self.now.number * 2 ^ k % 2 ^ self.now.width + self.now.number / 2 ^ (self.now.width - k) } }
    {
        let high = self.shl_by(u128::from(k)).number;
        let low = self.number >> (self.width - k);
        prove!(low <= greatest(self.width) - high);
        Bv::exact(self.width, high + low)
    }

    /// Each bit moved up by `n` modulo the width; those that leave at the top enter below. Lean 4 `BitVec.rotateLeft`.
    pub fn rotl(&self, n: u128) -> Bv
        ensures { result ≡ is.rotl self.now n }
    {
        let k = (n % u128::from(self.width)) as u8;
        if k == 0 { *self } else { self.rotated(k) }
    }

    /// Whether the unsigned value is below that of `other`. Lean 4 `BitVec.ult`.
    pub fn ult(&self, other: &Bv) -> bool
        requires { self.now.width ≡ other.now.width }
        ensures { result ≡ is.ult self.now other.now }
    {
        self.number < other.number
    }

    /// Whether the unsigned value is at most that of `other`. Lean 4 `BitVec.ule`.
    pub fn ule(&self, other: &Bv) -> bool
        requires { self.now.width ≡ other.now.width }
        ensures { result ≡ is.ule self.now other.now }
    {
        self.number <= other.number
    }

    /// Whether the signed value is at most that of `other`. Lean 4 `BitVec.sle`.
    pub fn sle(&self, other: &Bv) -> bool
        requires { self.now.width ≡ other.now.width }
        ensures { result ≡ is.sle self.now other.now }
    {
        signed_less(self.is_negative(), other.is_negative(), self.ule(other))
    }

    // Rotates down by less than the width.
    #[tactic(auto, using(crate::proofs::Powers::down_below, crate::proofs::Powers::down_fits))]
    fn rotated_down(&self, k: u8) -> Bv
        requires positive { 0 < k }
        requires below { k < self.now.width }
        ensures { result ≡ record self.now { number = self.now.number / 2 ^ k + self.now.number % 2 ^ k * 2 ^ (self.now.width - k) } }
    {
        let low = reduced(k, self.number) << (self.width - k);
        let high = self.number >> k;
        Bv::exact(self.width, high + low)
    }

    /// Each bit moved down by `n` modulo the width; those that leave below enter at the top. Lean 4 `BitVec.rotateRight`.
    pub fn rotr(&self, n: u128) -> Bv
        ensures { result ≡ is.rotr self.now n }
    {
        let k = (n % u128::from(self.width)) as u8;
        if k == 0 { *self } else { self.rotated_down(k) }
    }

    /// Moved up by the amount's number, of any width. Lean 4 `HShiftLeft` on two `BitVec`.
    pub fn shl(&self, amount: &Bv) -> Bv
        ensures { result ≡ is.shl_by self.now amount.now.number }
    {
        self.shl_by(amount.number)
    }

    /// Moved down by the amount's number, of any width, with zeros from above. Lean 4 `HShiftRight` on two `BitVec`.
    pub fn lshr(&self, amount: &Bv) -> Bv
        ensures { result ≡ is.lshr_by self.now amount.now.number }
    {
        self.lshr_by(amount.number)
    }

    /// Moved down by the amount's number, of any width, with copies of the top bit. Lean 4 `BitVec.sshiftRight'`.
    pub fn ashr(&self, amount: &Bv) -> Bv
        ensures { result ≡ is.ashr_by self.now amount.now.number }
    {
        self.ashr_by(amount.number)
    }
}

#[cfg(test)]
mod tests {
    use super::*;
    use std::test::*;

    fn crosses_threads<T: Send + Sync>(value: T) -> T {
        value
    }

    fn vector(number: u128) -> Bv
        ensures { result.width ≡ 8 }
    {
        Bv::new(8, number)
    }

    #[test]
    fn worked_values(rt: HostRuntime) {
        let top = vector(0x80);
        let rows = [
            ("reduced", vector(300), 44),
            ("sdiv that wraps", vector(128).sdiv(&vector(255)), 128),
            ("srem of -7 by 3", vector(249).srem(&vector(3)), 255),
            ("smod of -7 by 3", vector(249).smod(&vector(3)), 2),
            ("rotl by 9", vector(0x81).rotl(9), 3),
            ("ashr by 200", top.ashr_by(200), 0xff),
            ("and", vector(0b1100).and(&vector(0b1010)), 0b1000),
            ("or", vector(0b1100).or(&vector(0b1010)), 0b1110),
            ("xor", vector(0b1100).xor(&vector(0b1010)), 0b0110),
            ("udiv by 0", vector(7).udiv(&vector(0)), 0),
            ("umod by 0", vector(7).umod(&vector(0)), 7),
        ];
        for (name, value, want) in rows {
            assert_eq!(rt; crosses_threads(value), vector(want), "{name}");
        }
    }
}
