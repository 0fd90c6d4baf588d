// Numbers from a fixed seed (Marsaglia's xorshift of 64 bits): the dice are the last number.
ghost use Rattle.std.specs.Prelude.{◌≤◌};

pub(crate) const SEED: u64 = 0x9e37_79b9_7f4a_7c15;

#[derive(Clone, Copy)]
pub(crate) struct Dice(pub u64);

impl Dice {
    // The dice after a throw.
    pub(crate) fn thrown(self) -> Dice {
        let a = self.0 ^ (self.0 << 13);
        let b = a ^ (a >> 7);
        Dice(b ^ (b << 17))
    }

    // What they show: a number below `n`, or 0 where `n` is.
    pub(crate) fn below(self, n: u64) -> u64
        ensures { result ≤ n }
    {
        if n == 0 { 0 } else { (self.0 >> 20) % n }
    }
}
