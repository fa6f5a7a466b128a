//! The capacities of property arrays, and their classes. They know no shape.
ghost use Rattle.std.specs.Prelude.{◌≡◌, ◌<◌, ◌≤◌};
ghost use Rattle.tide_model.specs.Layout.{array_class_for, capacity_of};

/// The capacity of the array that `count` properties take: the least of 0, 4, 8, 16, 32 and 64 that isn't below
/// `count`, which is 0 to 64.
pub fn capacity(count: u32) -> u32
    requires { count ≤ 64 }
    ensures { result ≡ capacity_of count }
{
    match count {
        0 => 0,
        1..=4 => 4,
        5..=8 => 8,
        9..=16 => 16,
        17..=32 => 32,
        _ => 64,
    }
}

/// The class of the arrays that hold so many properties, 64 at most, with the least capacity.
pub fn array_class_for(count: u32) -> u8
    requires { count ≤ 64 }
    ensures class { result ≡ array_class_for count }
    ensures smallest { 5 ≤ result }
    ensures largest { result < 10 }
{
    match count {
        0..=4 => 5,
        5..=8 => 6,
        9..=16 => 7,
        17..=32 => 8,
        _ => 9,
    }
}
