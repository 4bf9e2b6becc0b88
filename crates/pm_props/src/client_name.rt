// Names of clients, and other names that are as short.

ghost use Rattle.std.specs.Prelude.{◌≡◌, ◌≤◌, ◌↔◌, IfSome, IsSome, length, nat_eq};
ghost use Rattle.std.specs.Str.{IsAscii};
ghost use Rattle.std.specs.Cmp.{partial_equiv_from_equiv};
ghost use Rattle.std.specs.Cmp.Lexicographic.{nat_list_eq_equiv, pointwise};

use std::marker::Model;

/// The greatest length of a name.
pub const LONGEST: usize = 32;

/// A name of at most 32 ASCII bytes, as clients have one and rules have a label. Contracts see it as its bytes.
#[derive(Clone, Copy)]
pub struct ClientName {
    bytes: [u8; 32],
    len: usize,
}

impl Model for ClientName {
    ghost use Rattle.std.specs.Prelude.{◌≡◌, ◌≤◌, ◌-◌, ◌++◌, ℕ, List, length, take, drop, replicate};
    ghost use Rattle.std.specs.Str.{IsAscii};
    ghost use Rattle.std.proofs.Common.{ap₂};
    ghost use Rattle.pm_props.specs.Padded.{length_kept, padded_back};

    ghost Value = { List ℕ };

    ghost view = { λ n. take n.len n.bytes };

    ghost invariant = { λ n. (n.len ≤ 32) × (length n.bytes ≡ 32) × (drop n.len n.bytes ≡ replicate (32 - n.len) 0) × IsAscii (take n.len n.bytes) };

    ghost inverse = { λ v. record { bytes = v ++ replicate (32 - length v) 0; len = length v } };

    ghost inverse_ok = { λ a h. ap₂ (λ b n. record { bytes = b; len = n }) (padded_back a.bytes a.len h.0 h.1 h.2) (length_kept a.bytes a.len h.0 h.1) };
}

impl ClientName {
    /// The name with these bytes; none where there are more than 32 or one that is not ASCII.
    pub fn new(text: &str) -> Option<ClientName>
        ensures some { IsSome result ↔ ((length text.now ≤ 32) × IsAscii text.now) }
        ensures value { IfSome result (λ n. n ≡ text.now) }
    {
        ClientName::of_bytes(text.as_bytes())
    }

    /// The same from bytes.
    pub fn of_bytes(text: &[u8]) -> Option<ClientName>
        ensures some { IsSome result ↔ ((length text.now ≤ 32) × IsAscii text.now) }
        ensures value { IfSome result (λ n. n ≡ text.now) }
    {
        if text.len() > LONGEST || !text.is_ascii() {
            return None;
        }
        let mut bytes = [0u8; 32];
        bytes[..text.len()].copy_from_slice(text);
        Some(ClientName {
            bytes,
            len: text.len(),
        })
    }

    /// The bytes of the name.
    pub fn as_bytes(&self) -> &[u8]
        ensures value { result.now ≡ self.now }
        ensures short { length result.now ≤ 32 }
        ensures ascii { IsAscii result.now }
    {
        &self.bytes[..self.len]
    }

    /// The name as a text.
    pub fn as_str(&self) -> &str
        ensures { result.now ≡ self.now }
    {
        str::from_utf8(self.as_bytes()).unwrap()
    }
}

impl PartialEq for ClientName {
    ghost eq = { pointwise nat_eq };

    ghost laws = { partial_equiv_from_equiv nat_list_eq_equiv };

    fn eq(&self, other: &ClientName) -> bool {
        self.as_bytes() == other.as_bytes()
    }
}

impl Eq for ClientName {
    ghost laws = { nat_list_eq_equiv };
}
