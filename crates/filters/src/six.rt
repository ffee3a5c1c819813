// A row from six rows, by a rule of six taps: what halving filters and half-pel kernels have in common.
ghost use Rattle.std.specs.Prelude.{◌≡◌, ◌≤◌, length};
ghost use Rattle.filters.specs.Row.{Six, sixes};
ghost use Rattle.filters.specs.Inner.{Reach};

pub trait Taps: Copy {
    ghost rule: { Self → Six };

    fn weighed(self, m2: u8, m1: u8, c0: u8, p1: u8, p2: u8, p3: u8) -> u8
        ensures { result ≡ rule self m2 m1 c0 p1 p2 p3 };
}

// The rule at each place, written as `out[i]` for the reason that `rows` gives. A row that the rule doesn't read may be any that is long enough.
// Six rows are six parameters: the rule names each, and of an array a clause would say which number each has.
// The bytes are read from the outer rows inward: of rows read in their own order, evenly apart, the compiler would make each address from the one before, at an instruction each.
#[tactic(auto, using(crate::proofs::Filling::filled_whole), unfolding(crate::specs::Row::sixes))]
pub fn six_row<T: Taps>(
    taps: T,
    out: &mut [u8],
    m2: &[u8],
    m1: &[u8],
    c0: &[u8],
    p1: &[u8],
    p2: &[u8],
    p3: &[u8],
)
    requires { Reach (length out.old) m2.now m1.now c0.now p1.now p2.now p3.now }
    ensures { out.new ≡ sixes (T.rule taps) (length out.old) m2.now m1.now c0.now p1.now p2.now p3.now }
{
    let n = out.len();
    for i in 0..n {
        let (a, f) = (m2[i], p3[i]);
        let (b, e) = (m1[i], p2[i]);
        out[i] = taps.weighed(a, b, c0[i], p1[i], e, f);
    }
}
