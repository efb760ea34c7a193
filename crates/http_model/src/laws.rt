//! Laws of the definitions, as contracts of functions that do nothing.
ghost use Rattle.http_model.specs.Reader.{IsReader};
ghost use Rattle.http_model.specs.Reads.{reads};
ghost use Rattle.http_model.specs.Wire.{hex};
ghost use Rattle.std.specs.Fmt.{digits};
ghost use Rattle.std.specs.Prelude.{false, ℕ, ◌≡◌, ◌<◌, ◌^◌};

/// Reading on extends what was read.
pub fn reading_on()
    ensures { IsReader reads }
{}

/// The size of a chunk is written as `{:x}` writes it.
pub fn chunk_sizes()
    ensures { (n : ℕ) → n < 2 ^ 64 → hex n ≡ digits 16 false n }
{}
