// Words: signed 32-bit numbers. Lent memory holds them as i32; inside they are u32, the bits of two's complement.
// Here: sum, difference and product, the comparisons, and the way between bits and numbers, one by one and by slices. Rests on
// specs/Word.antt, for what a word is, specs/Reckoning.antt, for a result that is none, and specs/Laid.antt, for what a copied slice leaves.
#![tactic(auto)]

ghost use Rattle.std.specs.Prelude.{◌≡◌, ◌+ℤ◌, ◌-ℤ◌, ◌*ℤ◌, length, take};
ghost use Rattle.std.specs.Int.Signed.{lt_z, le_z};
ghost use Rattle.std.specs.Int.{w32};
ghost use Rattle.std.proofs.Common.{to_z, of_z};
ghost use Rattle.word.specs.Word.{eq_z, AllWords};
ghost use Rattle.word.specs.Reckoning.{reckoning};
ghost use Rattle.word.specs.Laid.{laid};

// The sum, where it is a word (CR 3).
pub fn add(a: u32, b: u32) -> Option<u32>
    ensures { result ≡ reckoning (to_z w32 a +ℤ to_z w32 b) }
{
    let sum = a.cast_signed().checked_add(b.cast_signed())?;
    Some(sum.cast_unsigned())
}

// The difference, where it is a word.
pub fn sub(a: u32, b: u32) -> Option<u32>
    ensures { result ≡ reckoning (to_z w32 a -ℤ to_z w32 b) }
{
    let difference = a.cast_signed().checked_sub(b.cast_signed())?;
    Some(difference.cast_unsigned())
}

// The product, where it is a word.
pub fn mul(a: u32, b: u32) -> Option<u32>
    ensures { result ≡ reckoning (to_z w32 a *ℤ to_z w32 b) }
{
    let product = a.cast_signed().checked_mul(b.cast_signed())?;
    Some(product.cast_unsigned())
}

// Whether a's number is less than b's.
pub fn less(a: u32, b: u32) -> bool
    ensures { result ≡ lt_z (to_z w32 a) (to_z w32 b) }
{
    a.cast_signed() < b.cast_signed()
}

// Whether a's number is less than b's or is b's.
pub fn at_most(a: u32, b: u32) -> bool
    ensures { result ≡ le_z (to_z w32 a) (to_z w32 b) }
{
    a.cast_signed() <= b.cast_signed()
}

// Whether a's number is b's.
pub fn equal(a: u32, b: u32) -> bool
    ensures { result ≡ eq_z (to_z w32 a) (to_z w32 b) }
{
    a == b
}

// The bits of x.
pub fn bits(x: i32) -> u32
    ensures { result ≡ of_z w32 x }
{
    x.cast_unsigned()
}

// The number of the bits u.
pub fn number(u: u32) -> i32
    ensures { result ≡ to_z w32 u }
{
    u.cast_signed()
}

// The bits of the lent numbers, laid over the front of `own`: as many as both have, and the rest of `own` stays.
// What was read are words (of a lent slice of i32 nothing says so until it is read).
pub fn copy_in(lent: &[i32], own: &mut [u32])
    ensures own_after { own.new ≡ laid (of_z w32) lent.now own.old }
    ensures all_words { AllWords (take (length own.old) lent.now) }
{
    for (i, word) in own.iter_mut().enumerate() {
        let Some(x) = lent.get(i) else {
            return;
        };
        *word = x.cast_unsigned();
    }
}

// The numbers of own bits, laid over the front of `lent`: as many as both have, and the rest of `lent` stays.
pub fn copy_out(own: &[u32], lent: &mut [i32])
    ensures { lent.new ≡ laid (to_z w32) own.now lent.old }
{
    for (i, x) in lent.iter_mut().enumerate() {
        let Some(word) = own.get(i) else {
            return;
        };
        *x = word.cast_signed();
    }
}
