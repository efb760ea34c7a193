//! Mutations of a head or of trailers. The parts of a line, between commas:
//!
//! | part | says |
//! |---|---|
//! | `request`, `response`, `trailers` | what is changed |
//! | `rules FLAG ..` | the flags that stand, by the names that `Rules` gives them |
//! | `allow PREFIX ..`, `disallow PREFIX ..` | the prefixes of names |
//! | `head NAME=VALUE ..` | the fields that are there |
//! | `remove NAME ..` | removals |
//! | `append`, `add`, `replace`, `overwrite`, each with `NAME=VALUE ..` | settings by the actions 0 to 3 |

use crate::messages::tell_fields;
use crate::operands::{pair, text};
use anyhow::{Result, bail};
use ext_msgs::{Field, FieldList, HeaderMutation, NameList, SetField, SetList};
use header_mutation::{MutFault, PartKind, Rules, reply_head};
use pb_wire::Duplicate;
use std::alloc::Global;

// What a line says.
#[derive(Drop)]
struct Case {
    rules: Rules,
    part: PartKind,
    head: FieldList,
    mutation: HeaderMutation,
}

fn no_rules(alloc: Global) -> Rules {
    Rules {
        allow_all_routing: false,
        allow_envoy: false,
        disallow_system: false,
        disallow_all: false,
        disallow_is_error: false,
        disallow_prefixes: NameList::new(alloc),
        allow_prefixes: NameList::new(alloc),
    }
}

impl Case {
    fn of(alloc: Global, operands: &str) -> Result<Case> {
        let mut case = Case {
            rules: no_rules(alloc),
            part: PartKind::RequestHead,
            head: FieldList::new(alloc),
            mutation: HeaderMutation {
                set: SetList::new(alloc),
                remove: NameList::new(alloc),
            },
        };
        for part in operands.split(", ") {
            let (kind, words) = part.split_once(' ').unwrap_or((part, ""));
            for word in words.split(' ') {
                case.add(alloc, kind, word)?;
            }
        }
        Ok(case)
    }

    fn add(&mut self, alloc: Global, kind: &str, word: &str) -> Result<()> {
        match kind {
            "request" => self.part = PartKind::RequestHead,
            "response" => self.part = PartKind::ResponseHead,
            "trailers" => self.part = PartKind::Trailers,
            "rules" => self.flag(word)?,
            "allow" => self.rules.allow_prefixes.push(text(alloc, word)?)?,
            "disallow" => self.rules.disallow_prefixes.push(text(alloc, word)?)?,
            "head" => {
                let (name, value) = pair(alloc, word)?;
                self.head.push(Field { name, value })?;
            }
            "remove" => self.mutation.remove.push(pair(alloc, word)?.0)?,
            "append" => self.set(alloc, 0, word)?,
            "add" => self.set(alloc, 1, word)?,
            "replace" => self.set(alloc, 2, word)?,
            "overwrite" => self.set(alloc, 3, word)?,
            _ => bail!("no part: {kind}"),
        }
        Ok(())
    }

    fn flag(&mut self, name: &str) -> Result<()> {
        match name {
            "allow_all_routing" => self.rules.allow_all_routing = true,
            "allow_envoy" => self.rules.allow_envoy = true,
            "disallow_system" => self.rules.disallow_system = true,
            "disallow_all" => self.rules.disallow_all = true,
            "disallow_is_error" => self.rules.disallow_is_error = true,
            _ => bail!("no flag: {name}"),
        }
        Ok(())
    }

    fn set(&mut self, alloc: Global, action: u8, word: &str) -> Result<()> {
        let (name, value) = pair(alloc, word)?;
        self.mutation.set.push(SetField {
            name,
            value,
            action,
        })?;
        Ok(())
    }
}

/// `PART, ..`: what `apply` makes of the head, by a copy of the rules
pub fn apply(rt: &HostRuntime, operands: &str) -> Result<()> {
    let case = Case::of(rt.alloc(), operands)?;
    let rules = case.rules.copy()?;
    let head = header_mutation::apply(rt.alloc(), &rules, case.part, &case.head, &case.mutation);
    tell(rt, head)
}

/// `PART, ..`: what `judge` says
pub fn judge(rt: &HostRuntime, operands: &str) -> Result<()> {
    let case = Case::of(rt.alloc(), operands)?;
    match header_mutation::judge(&case.rules, case.part, &case.head, &case.mutation) {
        Ok(()) => Ok(println!(rt; "has a result")?),
        Err(fault) => tell_fault(rt, fault),
    }
}

/// `STATUS, ..`: the head of an immediate response
pub fn reply(rt: &HostRuntime, operands: &str) -> Result<()> {
    let (status, parts) = operands.split_once(", ").unwrap_or((operands, ""));
    let case = Case::of(rt.alloc(), parts)?;
    tell(
        rt,
        reply_head(rt.alloc(), status.as_bytes(), &case.mutation),
    )
}

fn tell(rt: &HostRuntime, head: Result<FieldList, MutFault>) -> Result<()> {
    match head {
        Ok(fields) => tell_fields(rt, &fields),
        Err(fault) => tell_fault(rt, fault),
    }
}

fn tell_fault(rt: &HostRuntime, fault: MutFault) -> Result<()> {
    let (word, place) = match fault {
        MutFault::Bad(place) => ("bad", place),
        MutFault::Disallowed(place) => ("disallowed", place),
        MutFault::Memory => bail!("out of memory"),
    };
    println!(rt; "refused: {word} {place}")?;
    Ok(())
}
