// The limits of 004, IEEE C37.118.1-2011: an array of arrays of triples, by class and then by test.
ghost use Rattle.std.specs.Prelude.{◌≡◌, ◌<◌};
ghost use Rattle.verdict.specs.Limits.{limits_in};

// Three to each class and test: TVE in percent, FE in µHz, RFE in µHz/s.
#[derive(Clone, Copy)]
pub struct Limits {
    pub tve: u8,
    pub fe: u32,
    pub rfe: u32,
}

// Class P, steady.
const P_STEADY: Limits = Limits {
    tve: 1,
    fe: 5000,
    rfe: 10000,
};

// Class P, ramp.
const P_RAMP: Limits = Limits {
    tve: 1,
    fe: 10000,
    rfe: 100000,
};

// Class M, steady.
const M_STEADY: Limits = Limits {
    tve: 1,
    fe: 5000,
    rfe: 10000,
};

// Class M, ramp.
const M_RAMP: Limits = Limits {
    tve: 1,
    fe: 5000,
    rfe: 100000,
};

// A row for each class: steady (test 0), ramp (test 1).
pub(crate) const TABLE_2011: [[Limits; 2]; 2] = [[P_STEADY, P_RAMP], [M_STEADY, M_RAMP]];

// The limits that a table has for a class and a test.
pub(crate) fn limits_in(table: [[Limits; 2]; 2], class: usize, test: usize) -> Limits
    requires { (class < 2) × (test < 2) }
    ensures { result ≡ limits_in table class test }
{
    table[class][test]
}
