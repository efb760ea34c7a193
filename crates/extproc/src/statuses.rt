// The exit statuses, and the line on standard error that says why.

use ext_config::ConfigFault;
use ext_top::Status;
use pb_wire::Blob;
use std::io;

// The number of a status.
pub fn code(status: &Status) -> u8 {
    match status {
        Status::Done => 0,
        Status::Usage => 2,
        Status::TraceFault(_) => 3,
        Status::ConfigFault(_) => 4,
        Status::ReadFault => 5,
        Status::WriteFault => 6,
        Status::Memory => 7,
        Status::NotBuilt => 9,
    }
}

// A key, its control bytes and what isn't ASCII escaped, so that the line stays one line.
fn escaped(rt: &HostRuntime, key: &Blob) -> io::Result<String> {
    let mut text = String::new(rt.alloc());
    for byte in key.bytes() {
        if byte.is_ascii_graphic() || *byte == b' ' {
            text.push(char::from(*byte))?;
        } else {
            text.push_str(format!(in rt.alloc(); "\\x{byte:02x}")?.as_str())?;
        }
    }
    Ok(text)
}

fn key_fault(rt: &HostRuntime, name: &str, key: &Blob) -> io::Result<()> {
    let key = escaped(rt, key)?;
    eprintln!(rt; "extproc: configuration: {name} {key}")
}

fn config_fault(rt: &HostRuntime, fault: &ConfigFault) -> io::Result<()> {
    match fault {
        ConfigFault::Json => eprintln!(rt; "extproc: configuration: json"),
        ConfigFault::Unknown(key) => key_fault(rt, "unknown", key),
        ConfigFault::Kind(key) => key_fault(rt, "kind", key),
        ConfigFault::Range(key) => key_fault(rt, "range", key),
        ConfigFault::Memory => eprintln!(rt; "extproc: memory"),
    }
}

fn told(rt: &HostRuntime, status: &Status) -> io::Result<()> {
    match status {
        Status::Done => Ok(()),
        Status::Usage => eprintln!(rt; "extproc: usage"),
        Status::TraceFault(line) => eprintln!(rt; "extproc: trace line {line}"),
        Status::ConfigFault(fault) => config_fault(rt, fault),
        Status::ReadFault => eprintln!(rt; "extproc: read"),
        Status::WriteFault => eprintln!(rt; "extproc: write"),
        Status::Memory => eprintln!(rt; "extproc: memory"),
        Status::NotBuilt => eprintln!(rt; "extproc: not built"),
    }
}

// One line where the status isn't 0. A standard error that is closed changes nothing.
pub fn report(rt: &HostRuntime, status: &Status) {
    let _ = told(rt, status);
}
