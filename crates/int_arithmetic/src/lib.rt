//! Signed arithmetic at 32 and at 64 bits on integers, the operators of ECMA-262, 11th edition (2020), on whole Numbers and on BigInts, and
//! the laws that join the two.
//!
//! `specs/` has both. The functions here are laws: they do nothing when they run, and their clauses are theorems.
#![tactic(auto)]

ghost use Rattle.std.specs.Prelude.{◌≡◌, ◌≢◌, ◌-◌, ◌/◌, ◌^◌, true, ℤ, pos, negsuc, ◌+ℤ◌, ◌-ℤ◌, ◌*ℤ◌, int_div, FitsSigned, Some, None};
ghost use Rattle.std.specs.Int.{cast_unsigned, w32, w64};
ghost use Rattle.int_arithmetic.specs.Signed.{sum, difference, product, quotient, remainder, bits_or, bits_and, bits_xor, shifted_left, shifted_right, shifted_right_with_zeros, wrapped, wrapped_to_byte, wrapped_to_short};
ghost use Rattle.int_arithmetic.specs.BigInts as big_ints;
ghost use Rattle.int_arithmetic.specs.BigInts.{as_signed, as_unsigned};
ghost use Rattle.int_arithmetic.specs.Longs as longs;
ghost use Rattle.int_arithmetic.specs.Modulo.{modulo};
ghost use Rattle.int_arithmetic.specs.Numbers.{or_numbers, and_numbers, xor_numbers, left_shift, signed_right_shift, unsigned_right_shift, imul, quotient_or_zero, remainder_or_zero, is_exact};

/// A law: on numbers of 32 bits, what the emitted code computes for an operator by the Numbers of ECMA-262 is what the operator gives.
/// So `(a + b) | 0` is the sum that wraps, `Math.imul(a, b)` the product, `(a / b) | 0` the quotient that rounds toward zero, `(a << 24)
/// >> 24` the byte of a number, and so on. Division is by any number but zero.
pub fn templates_keep_numbers()
    ensures sums { (a b : ℤ) → or_numbers (a +ℤ b) (pos 0) ≡ sum a b }
    ensures differences { (a b : ℤ) → or_numbers (a -ℤ b) (pos 0) ≡ difference a b }
    ensures products { (a b : ℤ) → FitsSigned w32 a → FitsSigned w32 b → imul a b ≡ product a b }
    ensures quotients { (a b : ℤ) → b ≢ pos 0 → quotient_or_zero a b ≡ quotient a b }
    ensures remainders { (a b : ℤ) → FitsSigned w32 b → b ≢ pos 0 → remainder_or_zero a b ≡ remainder a b }
    ensures ors { (a b : ℤ) → FitsSigned w32 a → FitsSigned w32 b → or_numbers a b ≡ bits_or a b }
    ensures ands { (a b : ℤ) → FitsSigned w32 a → FitsSigned w32 b → and_numbers a b ≡ bits_and a b }
    ensures xors { (a b : ℤ) → FitsSigned w32 a → FitsSigned w32 b → xor_numbers a b ≡ bits_xor a b }
    ensures left_shifts { (a b : ℤ) → FitsSigned w32 a → left_shift a b ≡ shifted_left a b }
    ensures right_shifts { (a b : ℤ) → FitsSigned w32 a → signed_right_shift a b ≡ shifted_right a b }
    ensures right_shifts_with_zeros { (a b : ℤ) → FitsSigned w32 a → or_numbers (unsigned_right_shift a b) (pos 0) ≡ shifted_right_with_zeros a b }
    ensures bytes { (a : ℤ) → signed_right_shift (left_shift a (pos 24)) (pos 24) ≡ wrapped_to_byte a }
    ensures shorts { (a : ℤ) → signed_right_shift (left_shift a (pos 16)) (pos 16) ≡ wrapped_to_short a }
{}

/// A law: sums and differences of numbers of 32 bits are exact Numbers, what wraps has 32 bits, and what the operators on longs give has 64.
pub fn numbers_stay_in_range()
    ensures sums { (a b : ℤ) → FitsSigned w32 a → FitsSigned w32 b → is_exact (a +ℤ b) ≡ true }
    ensures differences { (a b : ℤ) → FitsSigned w32 a → FitsSigned w32 b → is_exact (a -ℤ b) ≡ true }
    ensures wraps { (z : ℤ) → FitsSigned w32 (wrapped z) }
    ensures keeps { (z : ℤ) → FitsSigned w32 z → wrapped z ≡ z }
    ensures long_wraps { (z : ℤ) → FitsSigned w64 (longs.wrapped z) }
    ensures long_keeps { (z : ℤ) → FitsSigned w64 z → longs.wrapped z ≡ z }
{}

/// Worked values: the greatest number and 1 make the least, the least over -1 is the least, a remainder has the dividend's sign, and
/// shifts count by the low five bits.
pub fn worked_values()
    ensures greatest { sum (pos 2147483647) (pos 1) ≡ negsuc 2147483647 }
    ensures least { quotient (negsuc 2147483647) (negsuc 0) ≡ negsuc 2147483647 }
    ensures signs { remainder (negsuc 6) (pos 4) ≡ negsuc 2 }
    ensures places { shifted_left (pos 1) (pos 33) ≡ pos 2 }
    ensures zeros { shifted_right_with_zeros (negsuc 0) (pos 28) ≡ pos 15 }
    ensures copies { shifted_right (negsuc 15) (pos 2) ≡ negsuc 3 }
    ensures byte { wrapped_to_byte (pos 200) ≡ negsuc 55 }
{}

/// A law: on longs, what the emitted code computes for an operator by the BigInts of ECMA-262 is what the operator gives. So
/// `BigInt.asIntN(64, a + b)` is the sum that wraps, `a >> BigInt(b & 63)` the shift that copies the sign, `a | b` the longs' bits joined, and
/// so on. Division is by any long but zero.
pub fn templates_keep_longs()
    ensures cuts { (z : ℤ) → as_signed 64 z ≡ longs.wrapped z }
    ensures sums { (a b : ℤ) → FitsSigned w64 a → FitsSigned w64 b → big_ints.sum a b ≡ Some (a +ℤ b) }
    ensures differences { (a b : ℤ) → FitsSigned w64 a → FitsSigned w64 b → big_ints.difference a b ≡ Some (a -ℤ b) }
    ensures products { (a b : ℤ) → FitsSigned w64 a → FitsSigned w64 b → big_ints.product a b ≡ Some (a *ℤ b) }
    ensures quotients { (a b : ℤ) → FitsSigned w64 a → b ≢ pos 0 → big_ints.quotient a b ≡ Some (int_div a b) }
    ensures remainders { (a b : ℤ) → FitsSigned w64 a → b ≢ pos 0 → big_ints.remainder a b ≡ Some (longs.remainder a b) }
    ensures ors { (a b : ℤ) → FitsSigned w64 a → FitsSigned w64 b → big_ints.or_of a b ≡ longs.bits_or a b }
    ensures ands { (a b : ℤ) → FitsSigned w64 a → FitsSigned w64 b → big_ints.and_of a b ≡ longs.bits_and a b }
    ensures xors { (a b : ℤ) → FitsSigned w64 a → FitsSigned w64 b → big_ints.xor_of a b ≡ longs.bits_xor a b }
    ensures counts { (b : ℤ) → and_numbers b (pos 63) ≡ pos (longs.places b) }
    ensures left_shifts { (a b : ℤ) → FitsSigned w64 a → big_ints.left_shift a (pos (longs.places b)) ≡ Some (a *ℤ pos (2 ^ longs.places b)) }
    ensures right_shifts { (a b : ℤ) → big_ints.right_shift a (pos (longs.places b)) ≡ Some (longs.shifted_right a b) }
    ensures unsigned { (a : ℤ) → FitsSigned w64 a → as_unsigned 64 a ≡ Some (pos (cast_unsigned w64 a)) }
    ensures right_shifts_with_zeros { (a b : ℤ) → FitsSigned w64 a → as_signed 64 (pos (cast_unsigned w64 a / 2 ^ longs.places b)) ≡ longs.shifted_right_with_zeros a b }
    ensures ints { (a : ℤ) → as_signed 32 a ≡ wrapped a }
    ensures units { (a : ℤ) → and_numbers a (pos 65535) ≡ pos (modulo a (2 ^ 16)) }
{}

/// Worked values of longs and BigInts: longs wrap at 64 bits and BigInts don't; a division by zero has no value, and neither has what needs more than
/// 128 bits; a shift of a BigInt by a negative count goes the other way.
pub fn on_longs_and_big_ints()
    ensures greatest { longs.sum (pos (2 ^ 63 - 1)) (pos 1) ≡ negsuc (2 ^ 63 - 1) }
    ensures least { longs.quotient (negsuc (2 ^ 63 - 1)) (negsuc 0) ≡ negsuc (2 ^ 63 - 1) }
    ensures no_places { longs.shifted_left (negsuc 4) (pos 64) ≡ negsuc 4 }
    ensures all_places { longs.shifted_left (pos 1) (pos 63) ≡ negsuc (2 ^ 63 - 1) }
    ensures places { longs.shifted_left (pos 1) (pos 65) ≡ pos 2 }
    ensures below_zero { longs.shifted_left (pos 1) (negsuc 0) ≡ negsuc (2 ^ 63 - 1) }
    ensures copies { longs.shifted_right (negsuc (2 ^ 63 - 1)) (negsuc 0) ≡ negsuc 0 }
    ensures signs { longs.remainder (negsuc 6) (pos 4) ≡ negsuc 2 }
    ensures to_int { wrapped (negsuc 4294967295) ≡ pos 0 }
    ensures to_unit { modulo (negsuc 0) (2 ^ 16) ≡ 65535 }
    ensures zeros { longs.shifted_right_with_zeros (negsuc 0) (pos 60) ≡ pos 15 }
    ensures further { big_ints.sum (pos (2 ^ 63 - 1)) (pos 1) ≡ Some (pos (2 ^ 63)) }
    ensures too_far { big_ints.product (pos (2 ^ 64)) (pos (2 ^ 63)) ≡ None }
    ensures by_zero { big_ints.quotient (pos 1) (pos 0) ≡ None }
    ensures other_way { big_ints.left_shift (negsuc 7) (negsuc 0) ≡ Some (negsuc 3) }
    ensures all_gone { big_ints.right_shift (negsuc 7) (pos 1000) ≡ Some (negsuc 0) }
    ensures bits { big_ints.and_of (negsuc 0) (pos 255) ≡ pos 255 }
    ensures cut { big_ints.as_signed 64 (pos (2 ^ 63)) ≡ negsuc (2 ^ 63 - 1) }
    ensures no_bits { big_ints.as_signed 0 (pos 5) ≡ pos 0 }
    ensures unsigned { big_ints.as_unsigned 64 (negsuc 0) ≡ Some (pos (2 ^ 64 - 1)) }
{}
