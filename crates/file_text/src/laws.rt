//! How great the numbers are that texts write: each law is the contract of a function that does nothing.

ghost use Rattle.file_text.specs.Laws.{AddressesAreSmall, NumbersStayWithin, PortsAreSmall};

/// A number within bounds is no greater than the upper one.
pub fn numbers_stay_within()
    ensures { NumbersStayWithin }
{}

/// A port fits two bytes.
pub fn ports_are_small()
    ensures { PortsAreSmall }
{}

/// An address fits four bytes.
pub fn addresses_are_small()
    ensures { AddressesAreSmall }
{}
