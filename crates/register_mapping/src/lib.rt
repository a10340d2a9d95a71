// Which register an address is (manual 2.1).

#![tactic(auto)]

ghost use Rattle.std.specs.Prelude.{◌≡◌};
ghost use Rattle.machine.specs.Registers.{mapped};

// The register that an address is, by Page: UsePageSelect is bit 7, PageSelect bits 2-0.
pub fn mapped(page: u8, address: u8) -> u8
    ensures { result ≡ mapped page address }
{
    if page / 128 % 2 == 1 {
        8 * (page % 8) + address % 8
    } else {
        address
    }
}
