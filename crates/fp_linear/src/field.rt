//! The fields of the table and their arithmetic.
ghost use Rattle.std.specs.Prelude.{◌≡◌, ◌≢◌, ◌<◌, ◌↔◌, ◌*◌, MatchOption, IsTrue, ℕ};
ghost use Rattle.linear_algebra.specs.Field.{Gf, order, degree, characteristic, add, sub, mul, neg, inv};
ghost use Rattle.fp_linear.specs.Slices.{IsRowOfProducts, HasSums};
ghost use Rattle.fp_linear.specs.Tables.{table_of, multiples_of};

use crate::multiples::{MULTIPLES_9, MULTIPLES_25, MULTIPLES_27};
use crate::tables::{PRODUCTS_4, PRODUCTS_8, PRODUCTS_9, PRODUCTS_16, PRODUCTS_25, PRODUCTS_27};
use std::marker::Model;

/// A finite field of 2, 3, 4, 5, 7, 8, 9, 11, 13, 16, 25 or 27 elements. Its elements are the numbers below its size.
#[derive(Clone, Copy, PartialEq, Eq, Debug)]
pub struct Field {
    q: u32,
}

impl Model for Field {
    ghost use Rattle.linear_algebra.specs.Field.{Gf};
    ghost use Rattle.fp_linear.specs.Sizes.{field_of, IsFieldSize, held, held_by_size};

    ghost Value = { Gf };

    ghost view = { λ f. field_of f.q };

    ghost invariant = { λ f. IsFieldSize f.q };

    ghost inverse = { held };

    ghost inverse_ok = { held_by_size };
}

impl Field {
    /// The field of `q` elements; `None` where the table has none.
    pub fn of(q: u32) -> Option<Field>
        ensures { MatchOption result ((f : Gf) → order f ≢ q) (λ f. order f ≡ q) }
    {
        match q {
            2 | 3 | 4 | 5 | 7 | 8 | 9 | 11 | 13 | 16 | 25 | 27 => Some(Field { q }),
            _ => None,
        }
    }

    /// The number of elements.
    pub fn size(&self) -> u32
        ensures { result ≡ order self.now }
    {
        self.q
    }

    /// Whether the elements are the numbers modulo a prime.
    pub(crate) fn is_prime(&self) -> bool
        ensures { IsTrue result ↔ (degree self.now ≡ 1) }
    {
        !matches!(self.q, 4 | 8 | 9 | 16 | 25 | 27)
    }

    /// Whether sums are exclusive ors.
    pub(crate) fn is_binary(&self) -> bool
        ensures { IsTrue result ↔ (characteristic self.now ≡ 2) }
    {
        matches!(self.q, 2 | 4 | 8 | 16)
    }

    /// The table of products: row a, one of as many as the field has elements, has at place b the product of a and b.
    pub(crate) fn products(&self) -> &'static [u8]
        requires { degree self.now ≢ 1 }
        ensures { result.now ≡ table_of (order self.now) (mul self.now) }
    {
        match self.q {
            4 => &PRODUCTS_4,
            8 => &PRODUCTS_8,
            9 => &PRODUCTS_9,
            16 => &PRODUCTS_16,
            25 => &PRODUCTS_25,
            _ => &PRODUCTS_27,
        }
    }

    /// The products of an element with each element, in order.
    pub(crate) fn products_by(&self, factor: u8) -> &'static [u8]
        requires extension { degree self.now ≢ 1 }
        requires below { factor < order self.now }
        ensures { IsRowOfProducts self.now factor result.now }
    {
        let size = self.q as usize;
        let start = factor as usize * size;
        let end = start + size;
        &self.products()[start..end]
    }

    // The letters of all sums of an element and a product of two.
    fn multiples(&self) -> &'static [u8]
        requires extension { degree self.now ≢ 1 }
        requires odd { characteristic self.now ≢ 2 }
        ensures { result.now ≡ multiples_of self.now }
    {
        match self.q {
            9 => MULTIPLES_9,
            25 => MULTIPLES_25,
            _ => MULTIPLES_27,
        }
    }

    /// The letters of the sums of each element and the products of `factor` with each, row by row.
    pub(crate) fn sums_by(&self, factor: u8) -> &'static [u8]
        requires extension { degree self.now ≢ 1 }
        requires odd { characteristic self.now ≢ 2 }
        requires below { factor < order self.now }
        ensures { HasSums self.now factor result.now }
    {
        let part = self.q as usize * self.q as usize;
        let start = factor as usize * part;
        let end = start + part;
        &self.multiples()[start..end]
    }

    /// The sum of two elements.
    pub fn add(&self, a: u8, b: u8) -> u8
        requires a_below { a < order self.now }
        requires b_below { b < order self.now }
        ensures { result ≡ add self.now a b }
    {
        if self.is_binary() {
            a ^ b
        } else if self.is_prime() {
            ((a as u32 + b as u32) % self.q) as u8
        } else {
            self.sums_by(1)[a as usize * self.q as usize + b as usize] - b'@'
        }
    }

    /// The difference of two elements.
    pub fn sub(&self, a: u8, b: u8) -> u8
        requires a_below { a < order self.now }
        requires b_below { b < order self.now }
        ensures { result ≡ sub self.now a b }
    {
        self.add(a, self.neg(b))
    }

    /// The product of two elements.
    pub fn mul(&self, a: u8, b: u8) -> u8
        requires a_below { a < order self.now }
        requires b_below { b < order self.now }
        ensures { result ≡ mul self.now a b }
    {
        if self.is_prime() {
            ((a as u32 * b as u32) % self.q) as u8
        } else {
            self.products()[a as usize * self.q as usize + b as usize]
        }
    }

    /// The negative of an element.
    pub fn neg(&self, a: u8) -> u8
        requires { a < order self.now }
        ensures { result ≡ neg self.now a }
    {
        if self.is_binary() {
            a
        } else if self.is_prime() {
            ((self.q - a as u32) % self.q) as u8
        } else if self.q == 25 {
            self.mul(4, a)
        } else {
            self.mul(2, a)
        }
    }

    /// The inverse of an element that is not zero.
    pub fn inv(&self, a: u8) -> u8
        requires below { a < order self.now }
        requires nonzero { a ≢ 0 }
        ensures { result ≡ inv self.now a }
    {
        for b in 1..self.q as u8 {
            if self.mul(a, b) == 1 {
                return b;
            }
        }
        0
    }
}
