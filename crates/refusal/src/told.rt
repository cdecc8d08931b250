// The layer that refuses: choosing a parameter set, loading a key, operators, sinks, sessions,
// solving, the polynomial maker, our host.
#[derive(Clone, Copy, PartialEq, Eq)]
pub enum Layer {
    Sets,
    Loading,
    Operators,
    Sinks,
    Session,
    Solving,
    Maker,
    Host,
}

#[derive(Clone, Copy, PartialEq, Eq)]
pub struct Refusal {
    pub layer: Layer,
    // of the table of refusals, which other makers read: a number stands where a layer tells its fault
    pub number: u8,
    pub place: u16,
}
