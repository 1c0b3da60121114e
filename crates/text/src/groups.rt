ghost use Rattle.std.specs.Prelude.{◌≡◌};
ghost use Rattle.text.specs.Groups.{answer_line, answer_read, command_line, command_read, order_read, request_read, stop_read, used_line, used_read};

use crate::line::Line;
use crate::terms::{Keyed, Terms, read_last_key, read_terms};
use information::{AnswerGroup, CommandGroup, Order, ReportGroup};
use std::fmt;
use words::{Expected, KeyWord, end, first_word, read_key, read_level};

impl Line for ReportGroup {
    ghost parses = { used_read };

    ghost lined = { used_line };

    fn parse(line: &[u8]) -> Result<ReportGroup, Expected> {
        let (word, rest) = first_word(line);
        match word {
            b"used" => {
                let terms = read_terms(rest, false)?;
                Ok(ReportGroup {
                    place: 0,
                    key: terms.key,
                    level: terms.level,
                    used: terms.units,
                })
            }
            _ => Err(Expected::Used),
        }
    }

    fn fmt_line<W: fmt::Write>(&self, f: &mut fmt::Formatter<W>) -> fmt::Result {
        let terms = Terms {
            key: self.key,
            level: self.level,
            units: self.used,
        };
        write!(f, "used {terms}")
    }
}

fn read_stop(text: &[u8]) -> Result<AnswerGroup, Expected>
    ensures { result ≡ stop_read text.now }
{
    let (word, rest) = first_word(text);
    let key = read_key(word)?;
    let (word, rest) = first_word(rest);
    let level = read_level(word)?;
    end(rest)?;
    Ok(AnswerGroup {
        place: 0,
        key,
        level,
        granted: None,
    })
}

impl Line for AnswerGroup {
    ghost parses = { answer_read };

    ghost lined = { answer_line };

    #[tactic(auto, using(words::proofs::Same::spelled))]
    fn parse(line: &[u8]) -> Result<AnswerGroup, Expected> {
        let (word, rest) = first_word(line);
        match word {
            b"grant" => {
                let terms = read_terms(rest, true)?;
                Ok(AnswerGroup {
                    place: 0,
                    key: terms.key,
                    level: terms.level,
                    granted: Some(terms.units),
                })
            }
            b"stop" => read_stop(rest),
            _ => Err(Expected::GrantOrStop),
        }
    }

    fn fmt_line<W: fmt::Write>(&self, f: &mut fmt::Formatter<W>) -> fmt::Result {
        let (key, level) = (self.key, self.level);
        match self.granted {
            Some(units) => write!(f, "grant {}", Terms { key, level, units }),
            None => write!(f, "stop {}", Keyed { key, level }),
        }
    }
}

fn read_request(text: &[u8]) -> Result<Order, Expected>
    ensures { result ≡ request_read text.now }
{
    if first_word(text).0.is_empty() {
        return Ok(Order::Request { key: None });
    }
    let key = read_last_key(text)?;
    Ok(Order::Request { key: Some(key) })
}

#[tactic(auto, using(words::proofs::Same::spelled))]
fn read_order(line: &[u8]) -> Result<Order, Expected>
    ensures { result ≡ order_read line.now }
{
    let (word, rest) = first_word(line);
    match word {
        b"grant" => {
            let Terms { key, level, units } = read_terms(rest, true)?;
            Ok(Order::Grant { key, level, units })
        }
        b"disable" => {
            let key = read_last_key(rest)?;
            Ok(Order::Disable { key })
        }
        b"request" => read_request(rest),
        _ => Err(Expected::Order),
    }
}

impl Line for CommandGroup {
    ghost parses = { command_read };

    ghost lined = { command_line };

    fn parse(line: &[u8]) -> Result<CommandGroup, Expected> {
        let order = read_order(line)?;
        Ok(CommandGroup { place: 0, order })
    }

    fn fmt_line<W: fmt::Write>(&self, f: &mut fmt::Formatter<W>) -> fmt::Result {
        match self.order {
            Order::Grant { key, level, units } => write!(
                f,
                "grant {}",
                Terms { key, level, units }
            ),
            Order::Disable { key } => write!(f, "disable {}", KeyWord(&key)),
            Order::Request { key: None } => write!(f, "request"),
            Order::Request { key: Some(key) } => write!(f, "request {}", KeyWord(&key)),
        }
    }
}
