// What every quantity does: it accepts payloads, and makes elements of them that can be summed. A value and its back value are taken
// bare, as fields of a leg; a type of the two would be a third of a leg.
ghost use Rattle.std.specs.Prelude.{◌≡◌};
ghost use Rattle.std.specs.Option.{option_map};
ghost use Rattle.quantities.specs.Terms.{Terms};

use records::word::Payload;

pub trait Quantity {
    // a sum of contributions, misclosures or due sums
    type Element: Copy;

    ghost meaning: { Self → Terms Self.Element };

    fn accepts_value(&self, value: Payload) -> bool
        ensures { result ≡ (meaning self.now).accepts_value value.bits };

    fn accepts_back(&self, back: Option<Payload>) -> bool
        ensures { result ≡ (meaning self.now).accepts_back (option_map (λ p. p.bits) back) };

    fn accepts_due(&self, due: Payload) -> bool
        ensures { result ≡ (meaning self.now).accepts_due due.bits };

    // What a leg adds to a circuit that runs it along its direction.
    fn contribution(&self, value: Payload, back: Option<Payload>) -> Self::Element
        ensures { result ≡ (meaning self.now).contribution value.bits (option_map (λ p. p.bits) back) };

    // By how much the two runnings of a leg disagree.
    fn misclosure(&self, value: Payload, back: Option<Payload>) -> Self::Element
        ensures { result ≡ (meaning self.now).misclosure value.bits (option_map (λ p. p.bits) back) };

    fn due(&self, due: Payload) -> Self::Element
        ensures { result ≡ (meaning self.now).due due.bits };

    fn zero(&self) -> Self::Element
        ensures { result ≡ (meaning self.now).zero };

    fn sum(&self, a: Self::Element, b: Self::Element) -> Self::Element
        ensures { result ≡ (meaning self.now).plus a b };

    fn opposite(&self, a: Self::Element) -> Self::Element
        ensures { result ≡ (meaning self.now).opposite a };

    fn size(&self, a: Self::Element) -> u64
        ensures { result ≡ (meaning self.now).size a };
}
