// A rule as a record of eight bytes, written and read.
ghost use Rattle.std.specs.Prelude.{◌≡◌, ◌<◌, ok_or};
ghost use Rattle.rules.specs.declared.refusal.Refusal.TheVariants.{BrokenLayout};
ghost use Rattle.controller.specs.Records.{record_of, rule_in};

use rules::refusal::Refusal;
use rules::rule::Rule;
use rules::server::Server;

pub(crate) fn record_bytes(rule: Rule) -> [u8; 8]
    requires { rule.length < 256 }
    ensures { result ≡ record_of rule }
{
    let [a, b, c, d] = rule.start.to_be_bytes();
    [a, b, c, d, rule.length as u8, rule.server.number(), 0, 0]
}

// Refused where the bytes are no record.
pub(crate) fn read_rule(bytes: &[u8]) -> Result<Rule, Refusal>
    ensures { result ≡ ok_or (rule_in bytes.now) BrokenLayout }
{
    let [a, b, c, d, length, server, 0, 0] = bytes else {
        return Err(Refusal::BrokenLayout);
    };
    let server = Server::try_from(*server)?;
    Ok(Rule {
        start: u32::from_be_bytes([*a, *b, *c, *d]),
        length: u32::from(*length),
        server,
    })
}
