//! A law of the definitions: a function without code, whose contract is proved of every value.

ghost use Rattle.message_meaning.specs.WhatIsPaid.{PaymentsPayWhatIsMeant};

/// What a payment does on coherent records, stated without the walk over the fees that pays them: the lesser of the amount and
/// of what is left to pay of the fees that are meant is paid on them, the oldest first; what the patron owes falls by just that;
/// no fee is paid above its amount.
pub fn payments_pay_what_is_meant()
    ensures { PaymentsPayWhatIsMeant }
{}
