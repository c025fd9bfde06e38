ghost use Rattle.std.specs.Prelude.{◌≡◌};
ghost use Rattle.instance.specs.Weights.{coded, decoded};

// A clause is hard, or soft with a weight. In the store a hard clause has the weight 0.
#[derive(Clone, Copy, Debug, PartialEq, Eq)]
pub enum Weight {
    Hard,
    Soft(u64),
}

impl From<u64> for Weight {
    ghost from_gives = { λ code weight. weight ≡ decoded code };

    fn from(code: u64) -> Weight {
        if code == 0 {
            Weight::Hard
        } else {
            Weight::Soft(code)
        }
    }
}

impl From<Weight> for u64 {
    ghost from_gives = { λ weight code. code ≡ coded weight };

    fn from(weight: Weight) -> u64 {
        match weight {
            Weight::Hard => 0,
            Weight::Soft(w) => w,
        }
    }
}
