// How long the tables of a hall are: within their limits, since no other lengths can be made.
ghost use Rattle.std.specs.Prelude.{◌≡◌, true};
ghost use Rattle.register.specs.Openings.{right_lengths};

#[derive(Clone, Copy, PartialEq, Eq, Debug)]
pub struct Lengths {
    pub(crate) post: usize,
    pub(crate) log: usize,
    pub(crate) roll: usize,
    ghost limits: { right_lengths post log roll ≡ true },
}

impl Lengths {
    ghost use Rattle.std.specs.Prelude.{cond, Some, None};
    ghost use Rattle.std.specs.Option.{option_map};
    ghost use Rattle.register.specs.Views.{lengths};

    pub(crate) fn new(post: usize, log: usize, roll: usize) -> Option<Lengths>
        ensures { option_map lengths result ≡ cond (right_lengths post log roll) (Some (record { post = post; log = log; roll = roll })) None }
    {
        let is_right = (1..=4096).contains(&post)
            && (1..=1024).contains(&log)
            && (1..=256).contains(&roll);
        if is_right {
            Some(Lengths { post, log, roll })
        } else {
            None
        }
    }
}
