// What `--help` and `--version` print.

const HELP: &str = "\
extproc: Envoy's external processing service, with both ends

usage: extproc WORDS..

  replay        reads a trace from standard input, writes its transcript
  show answer   reads a line of hexadecimal digits, writes `canonical HEX` or
                `refused NAME PLACE`: what ProcessingResponse they are
  show ask      the same of a ProcessingRequest
  show h2       the same of HTTP/2 frames: a line `frame TYPE FLAGS STREAM
                LENGTH` each, then `rest N` or `refused CODE`
  load NUMBER COUNT
                runs COUNT generated exchanges (not built yet)
  proxy LISTEN UPSTREAM PROCESSOR COUNT
                serves as proxy (not built yet)
  processor LISTEN COUNT
                serves as processor (not built yet)
  --help        writes this text
  --version     writes the program's version

On another status than 0 one line on standard error says why: 2 usage,
3 a line of the trace, 4 the configuration, 5 read, 6 write, 7 memory,
9 not built.
";

const VERSION: &str = "extproc 0.1.0\n";

// The text that these words ask for, or none where they are a command.
pub fn text(words: &[&str]) -> Option<&'static str> {
    if words.len() != 1 {
        return None;
    }
    match words[0] {
        "--help" => Some(HELP),
        "--version" => Some(VERSION),
        _ => None,
    }
}
