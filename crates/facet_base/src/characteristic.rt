/// What a type can do, by the name of the trait that says so.
#[derive(Clone, Copy, PartialEq, Eq, Hash, Debug)]
pub enum Characteristic {
    Clone,
    Display,
    Debug,
    PartialEq,
    PartialOrd,
    Ord,
    Hash,
    Default,
    FromStr,
}
