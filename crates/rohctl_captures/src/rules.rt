//! Whose packets a capture has: the rules of the options.

ghost use Rattle.std.specs.Prelude.{◌≡◌, ◌<◌, length, IfOk, IfErr};
ghost use Rattle.rohctl_ground.specs.Ending.{status_of};

use rohc_capture::Rule;
use rohc_concentrator::Concentrator;
use rohctl_ground::{Ending, Misuse, Nothing};
use std::alloc::Global;

/// The options that say which link a frame belongs to, and how packets lie in frames.
#[derive(Clone, Copy)]
pub struct RuleWords<'a> {
    /// The link of ROHC packets that the capture's own link carries.
    pub link: Option<&'a str>,
    /// The links of VLANs, as N=L with commas between them.
    pub vlan: Option<&'a str>,
    /// UDP ports, as N or N=L with commas between them.
    pub port: Option<&'a str>,
    /// Another EtherType of ROHC.
    pub ethertype: Option<&'a str>,
    /// A link type whose frames begin with ROHC.
    pub linktype: Option<&'a str>,
    /// How many octets lie before each packet.
    pub offset: Option<&'a str>,
}

/// The options that name links.
#[derive(Clone, Copy, PartialEq, Eq)]
enum Naming {
    /// `--vlan`: N=L.
    Vlan,
    /// `--port`: N or N=L.
    Port,
    /// `--link`: L.
    Link,
}

/// The rule of a VLAN, N=L, if it can be read.
fn vlan_rule(text: &str) -> Option<Rule> {
    let (vlan, link) = text.split_once("=")?;
    let vlan: u16 = vlan.parse().ok()?;
    if vlan > 4095 {
        return None;
    }
    Some(Rule::Vlan(vlan, link.parse().ok()?))
}

/// The rule of a port, N or N=L, if it can be read.
fn port_rule(text: &str) -> Option<Rule> {
    match text.split_once("=") {
        Some((port, link)) => Some(Rule::Port(port.parse().ok()?, link.parse().ok()?)),
        None => Some(Rule::Numbered(text.parse().ok()?)),
    }
}

/// The rule in a part of an option's value, if it can be read.
fn rule_of(naming: Naming, text: &str) -> Option<Rule> {
    match naming {
        Naming::Vlan => vlan_rule(text),
        Naming::Port => port_rule(text),
        Naming::Link => Some(Rule::Every(text.parse().ok()?)),
    }
}

impl Naming {
    /// The option.
    fn word(self) -> &'static str {
        match self {
            Naming::Vlan => "--vlan",
            Naming::Port => "--port",
            Naming::Link => "--link",
        }
    }

    /// What its value is.
    fn expected(self) -> &'static str {
        match self {
            Naming::Vlan => "VLAN=LINK, as 5=1: a VLAN from 0 to 4095, a link from 0 to 65535",
            Naming::Port => "PORT or PORT=LINK, as 5000=1: each from 0 to 65535",
            Naming::Link => "the number of a link, 0 to 65535",
        }
    }
}

/// Appends the rules of an option, if it is given.
fn add_rules<'a>(
    rules: &mut Vec<Rule>,
    naming: Naming,
    text: Option<&'a str>,
) -> Result<(), Ending<'a>> {
    let Some(text) = text else {
        return Ok(());
    };
    for part in text.split(",") {
        let Some(rule) = rule_of(naming, part) else {
            return Err(Ending::Misuse(Misuse::Value {
                word: naming.word(),
                given: text,
                expected: naming.expected(),
            }));
        };
        if rules.push(rule).is_err() {
            return Err(Ending::Memory);
        }
    }
    Ok(())
}

/// The rules that are asked for: those of VLANs, of ports, and of the link that has all others.
pub fn rules_of<'a>(alloc: Global, asked: &RuleWords<'a>) -> Result<Vec<Rule>, Ending<'a>>
    ensures some { IfOk result (λ rules. 0 < length rules.items) }
{
    let mut rules = Vec::new(alloc);
    add_rules(&mut rules, Naming::Vlan, asked.vlan)?;
    add_rules(&mut rules, Naming::Port, asked.port)?;
    add_rules(&mut rules, Naming::Link, asked.link)?;
    if rules.is_empty() {
        return Err(Ending::Misuse(Misuse::Missing {
            word: "--link, --vlan or --port",
            expected: "the link of the capture's frames, as --link 1, --vlan 5=1 or --port 5000=1",
        }));
    }
    Ok(rules)
}

/// The link that a rule names, if it names one.
fn link_of(rule: Rule) -> Option<u16> {
    match rule {
        Rule::Every(link) | Rule::Vlan(_, link) | Rule::Port(_, link) => Some(link),
        Rule::Numbered(_) => None,
    }
}

/// Refuses a rule that names a link which the links file of this path doesn't have.
pub fn check_links<'a>(
    concentrator: &Concentrator,
    links: &'a str,
    rules: &[Rule],
) -> Result<(), Ending<'a>>
    ensures nothing { IfErr result (λ ending. status_of ending ≡ 6) }
{
    for rule in rules {
        if let Some(link) = link_of(*rule)
            && concentrator.tables().get(&link).is_none()
        {
            return Err(Ending::Nothing(links, Nothing::NoLink(link)));
        }
    }
    Ok(())
}
