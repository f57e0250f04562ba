// The drivers' names.
ghost use Rattle.std.specs.Prelude.{◌≡◌};
ghost use Rattle.mage_words.specs.Words.{driver_named};

/// The drivers.
#[derive(Clone, Copy, Debug, PartialEq, Eq)]
pub enum DriverName {
    Plain,
    Garble,
    Eval,
}

/// The driver that the word names.
pub fn driver_named(word: &str) -> Option<DriverName>
    ensures { result ≡ driver_named word.now }
{
    if word == "plain" {
        Some(DriverName::Plain)
    } else if word == "garble" {
        Some(DriverName::Garble)
    } else if word == "eval" {
        Some(DriverName::Eval)
    } else {
        None
    }
}
