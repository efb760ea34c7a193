//! The words of the command line.

ghost use Rattle.std.specs.Prelude.{◌≡◌, ◌≤◌, map, option_copied, IfSome};
ghost use Rattle.ext_top.specs.Commands.{command_of, address_of, at_port, count_of, shown as shown_by, loaded, processing, proxying, one_word as one, two_words as two, three_words as three, five_words as five, within as number_within};

use crate::scan::strip;
use crate::words::{Address, Command};
use trace_format::number;

// A decimal number from 1 to a limit.
fn within(text: &[u8], most: u64) -> Option<u64>
    ensures value { result ≡ number_within most text.now }
    ensures bound { IfSome result (λ n. n ≤ most) }
{
    match number(text, most) {
        Some(n) if n > 0 => Some(n),
        _ => None,
    }
}

fn count(text: &str) -> Option<u32>
    ensures { result ≡ count_of text.now }
{
    match within(text.as_bytes(), 100_000) {
        Some(n) => Some(n as u32),
        None => None,
    }
}

// The port behind the number or the name of this machine.
fn port_behind(named: bool, digits: Option<&[u8]>) -> Option<Address>
    ensures { result ≡ at_port named (option_copied digits.entry) }
{
    let Some(text) = digits else {
        return None;
    };
    match within(text, 65_535) {
        Some(n) => Some(Address {
            named,
            port: n as u16,
        }),
        None => None,
    }
}

fn address_at(text: &str) -> Option<Address>
    ensures { result ≡ address_of text.now }
{
    let text = text.as_bytes();
    match port_behind(false, strip(text, b"127.0.0.1:")) {
        Some(address) => Some(address),
        None => port_behind(true, strip(text, b"localhost:")),
    }
}

fn shown(what: &str) -> Option<Command>
    ensures { result ≡ shown_by what.now }
{
    if what == "answer" {
        return Some(Command::ShowAnswer);
    }
    if what == "ask" {
        return Some(Command::ShowAsk);
    }
    if what == "h2" {
        return Some(Command::ShowH2);
    }
    None
}

fn load(number_text: &str, count_text: &str) -> Option<Command>
    ensures { result ≡ loaded number_text.now count_text.now }
{
    let Some(seed) = number(number_text.as_bytes(), u64::MAX) else {
        return None;
    };
    let Some(count) = count(count_text) else {
        return None;
    };
    Some(Command::Load(seed, count))
}

fn processor(listen: &str, count_text: &str) -> Option<Command>
    ensures { result ≡ processing listen.now count_text.now }
{
    let Some(listen) = address_at(listen) else {
        return None;
    };
    let Some(count) = count(count_text) else {
        return None;
    };
    Some(Command::Processor(listen, count))
}

fn proxy(listen: &str, upstream: &str, processor: &str, count_text: &str) -> Option<Command>
    ensures { result ≡ proxying listen.now upstream.now processor.now count_text.now }
{
    let Some(listen) = address_at(listen) else {
        return None;
    };
    let Some(upstream) = address_at(upstream) else {
        return None;
    };
    let Some(processor) = address_at(processor) else {
        return None;
    };
    let Some(count) = count(count_text) else {
        return None;
    };
    Some(Command::Proxy(listen, upstream, processor, count))
}

fn one_word(word: &str) -> Option<Command>
    ensures { result ≡ one word.now }
{
    if word == "replay" {
        return Some(Command::Replay);
    }
    None
}

fn two_words(word: &str, what: &str) -> Option<Command>
    ensures { result ≡ two word.now what.now }
{
    if word == "show" {
        return shown(what);
    }
    None
}

fn three_words(word: &str, first: &str, count: &str) -> Option<Command>
    ensures { result ≡ three word.now first.now count.now }
{
    if word == "load" {
        return load(first, count);
    }
    if word == "processor" {
        return processor(first, count);
    }
    None
}

fn five_words(word: &str, listen: &str, upstream: &str, asked: &str, count: &str) -> Option<Command>
    ensures { result ≡ five word.now listen.now upstream.now asked.now count.now }
{
    if word == "proxy" {
        return proxy(listen, upstream, asked, count);
    }
    None
}

/// What the words of the command line ask for, or nothing where they are outside the table.
#[tactic(auto, unfolding(crate::specs::Commands::command_of))]
pub fn command(words: &[&str]) -> Option<Command>
    ensures { result ≡ command_of (map (λ w. w.now) words.now) }
{
    match words {
        [word] => one_word(word),
        [word, what] => two_words(word, what),
        [word, first, count] => three_words(word, first, count),
        [word, listen, upstream, asked, count] => five_words(word, listen, upstream, asked, count),
        _ => None,
    }
}
