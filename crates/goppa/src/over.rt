// Calls a function that is generic over the field, over the field of the set; the crate that calls it
// uses crate field. The number m tells the field: tables, keys and proofs speak of it.
#[macro_export]
macro_rules! over_field {
    ($set:expr, $work:ident($($argument:expr),*)) => {
        match $set.m {
            4 => $work::<field::Gf4>($($argument),*),
            5 => $work::<field::Gf5>($($argument),*),
            12 => $work::<field::Gf12>($($argument),*),
            _ => $work::<field::Gf13>($($argument),*),
        }
    };
}
