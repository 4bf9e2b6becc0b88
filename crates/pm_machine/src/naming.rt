// Rules by their labels, and clients by their names.

ghost use Rattle.pm_machine.specs.Steps.{has_label, is_client, without_client};
ghost use Rattle.std.specs.List.{remove};
ghost use Rattle.std.specs.Prelude.{IfNone, IfSome, IsTrue, false, length, map, ◌<◌, ◌≡◌};
ghost use Rattle.std.specs.Str.{bytes_eq};

use pm_client::Client;
use pm_rules::Rule;

/// Whether some rule has the label.
pub fn has_label(rules: &[Rule], label: &str) -> bool
    ensures { result ≡ has_label label.now rules.now }
{
    rules
        .iter()
        .any(|rule| rule.label.as_bytes() == label.as_bytes())
}

// Whether the client has the name.
fn is_named(client: &Box<dyn Client>, name: &str) -> bool
    ensures { result ≡ bytes_eq (tally client.now).0.name name.now }
{
    client.kind().name.as_bytes() == name.as_bytes()
}

/// The place of the first client of the name.
pub fn place_named(clients: &[Box<dyn Client>], name: &str) -> Option<usize>
    ensures within { IfSome result (λ i. i < length clients.now) }
    ensures some { IfSome result (λ i. IsTrue (is_client name.now (map tally clients.now))) }
    ensures without { IfSome result (λ i. without_client name.now (map tally clients.now)
        ≡ map tally (remove clients.now i)) }
    ensures none { IfNone result (is_client name.now (map tally clients.now) ≡ false) }
{
    for (i, client) in clients.iter().enumerate() {
        if is_named(client, name) {
            return Some(i);
        }
    }
    None
}
