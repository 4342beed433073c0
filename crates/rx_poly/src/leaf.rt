//! The plain product of two short polynomials, all of its terms written out: three products of four coefficients
//! each, that of the low halves, that of the high ones, and that of their sums, less the first two.
ghost use Rattle.std.specs.Prelude.{◌≡◌, length};
ghost use Rattle.rx_laws.specs.Words.{AreWords, of_words};
ghost use Rattle.rx_ring.specs.Linear.{linear};

/// A leaf has so many coefficients.
pub(crate) const LEAF: usize = 8;

/// The sum of some products, modulo 2^64.
macro_rules! sum {
    ($($a:ident * $b:ident),+) => {
        0u64$(.wrapping_add($a.wrapping_mul($b)))+
    };
}

/// The seven places of the product of four coefficients and four others.
macro_rules! product {
    ($a:ident $b:ident $c:ident $d:ident, $w:ident $x:ident $y:ident $z:ident) => {
        (
            sum!($a * $w),
            sum!($a * $x, $b * $w),
            sum!($a * $y, $b * $x, $c * $w),
            sum!($a * $z, $b * $y, $c * $x, $d * $w),
            sum!($b * $z, $c * $y, $d * $x),
            sum!($c * $z, $d * $y),
            sum!($d * $z),
        )
    };
}

/// Writes the plain product of `a` and `b`, of 8 coefficients each, into the 16 places of `out`.
pub(crate) fn linear_leaf(out: &mut [u64], a: &[u64], b: &[u64])
    requires first { length a.now ≡ 8 }
    requires second { length b.now ≡ 8 }
    requires twice { length out.old ≡ 16 }
    ensures { AreWords 16 (linear 8 (of_words a.now) (of_words b.now)) out.new }
{
    let (a0, a1, a2, a3) = (a[0], a[1], a[2], a[3]);
    let (a4, a5, a6, a7) = (a[4], a[5], a[6], a[7]);
    let (b0, b1, b2, b3) = (b[0], b[1], b[2], b[3]);
    let (b4, b5, b6, b7) = (b[4], b[5], b[6], b[7]);
    let (s0, s1) = (a0.wrapping_add(a4), a1.wrapping_add(a5));
    let (s2, s3) = (a2.wrapping_add(a6), a3.wrapping_add(a7));
    let (t0, t1) = (b0.wrapping_add(b4), b1.wrapping_add(b5));
    let (t2, t3) = (b2.wrapping_add(b6), b3.wrapping_add(b7));
    let (p0, p1, p2, p3, p4, p5, p6) = product!(a0 a1 a2 a3, b0 b1 b2 b3);
    let (q0, q1, q2, q3, q4, q5, q6) = product!(a4 a5 a6 a7, b4 b5 b6 b7);
    let (m0, m1, m2, m3, m4, m5, m6) = product!(s0 s1 s2 s3, t0 t1 t2 t3);
    let (low, high) = out.split_at_mut(LEAF);
    low[0] = p0;
    low[1] = p1;
    low[2] = p2;
    low[3] = p3;
    low[4] = p4.wrapping_add(m0.wrapping_sub(p0).wrapping_sub(q0));
    low[5] = p5.wrapping_add(m1.wrapping_sub(p1).wrapping_sub(q1));
    low[6] = p6.wrapping_add(m2.wrapping_sub(p2).wrapping_sub(q2));
    low[7] = m3.wrapping_sub(p3).wrapping_sub(q3);
    high[0] = q0.wrapping_add(m4.wrapping_sub(p4).wrapping_sub(q4));
    high[1] = q1.wrapping_add(m5.wrapping_sub(p5).wrapping_sub(q5));
    high[2] = q2.wrapping_add(m6.wrapping_sub(p6).wrapping_sub(q6));
    high[3] = q3;
    high[4] = q4;
    high[5] = q5;
    high[6] = q6;
    high[7] = 0;
}
