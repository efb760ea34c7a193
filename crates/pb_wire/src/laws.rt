//! What is a list of records, and which fault is the first.

ghost use Rattle.std.specs.Prelude.{◌≡◌, ◌<◌, ◌-◌, ◌++◌, ◌⊎◌, ℕ, List, length, Option, None, Some, Result, Err};
ghost use Rattle.pb_wire.specs.declared.fault.Cause.{Cause};
ghost use Rattle.pb_wire.specs.declared.fault.WireFault.{WireFault};
ghost use Rattle.pb_wire.specs.declared.reader.Record.{Record};
ghost use Rattle.pb_wire.specs.Records.{Entry, Records, FirstFault};
ghost use Rattle.pb_wire.specs.Reading.{fault_at};
ghost use Rattle.pb_wire.specs.Cursor.{Cursor, Nexts};
ghost use Rattle.pb_wire.specs.Walk.{entries, wire_fault};
ghost use Rattle.pb_wire.specs.Parts.{AreRecords, AreRefused};

/// Any bytes are records, or records and then one that is at fault.
pub fn parts_of_bytes()
    ensures { (end : ℕ) (bytes : List ℕ) → AreRecords end bytes ⊎ AreRefused end bytes }
{}

/// Bytes have one list of records at most.
pub fn one_list_of_records()
    ensures { (end : ℕ) (bytes : List ℕ) (es : List Entry) → Records bytes es → (entries bytes ≡ es)
        × (wire_fault end bytes ≡ None) }
{}

/// A fault behind records is the one that is found, and nothing but these records is found before it.
pub fn one_first_fault()
    ensures { (end : ℕ) (front rest : List ℕ) (es : List Entry) (cause : Cause) → Records front es → 0 < length rest
        → FirstFault rest cause → (entries (front ++ rest) ≡ es)
        × (wire_fault end (front ++ rest) ≡ Some (fault_at (end - length rest) cause)) }
{}

/// A reader that gave a fault gives the same fault at its next call.
pub fn fault_stays()
    ensures { (first second third : Cursor) (fault : WireFault) (result : Result (Option Record) WireFault)
        → Nexts first second (Err fault) → Nexts second third result → result ≡ Err fault }
{}
