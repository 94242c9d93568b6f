ghost use Rattle.std.specs.Prelude.{◌≤◌};

/// The range of a number field: from `low` to below `past`.
#[derive(Clone, Copy, Debug)]
pub struct Limits {
    pub low: u32,
    pub past: u32,
    ghost small: { past ≤ 65536 },
}
