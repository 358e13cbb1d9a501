//! The shape of a generated system, by its number.

ghost use Rattle.std.specs.Prelude.{◌≡◌, ◌<◌};
ghost use Rattle.mcs_generator.specs.Generated.{context_count, chain_length, is_forbidding};
ghost use Rattle.mcs_generator.specs.Generated.{is_program_at};

/// The number of contexts.
pub(crate) fn context_count(number: u64) -> u32
    ensures { result ≡ context_count number }
{
    2 + (number % 32) as u32
}

/// The number of links of the chain in each context.
pub(crate) fn chain_length(number: u64) -> u32
    ensures { result ≡ chain_length number }
{
    1 + (number / 32 % 32) as u32
}

/// Whether the context forbids what the rules into it add. This is meant to make the system
/// inconsistent.
pub(crate) fn is_forbidding(number: u64, context: u32) -> bool
    requires { context < context_count number }
    ensures { result ≡ is_forbidding number context }
{
    let inconsistent = number / 1024 % 2 == 1;
    inconsistent && context + 1 == context_count(number)
}

/// Whether the context is a program.
pub(crate) fn is_program_at(number: u64, context: u32) -> bool
    requires { context < context_count number }
    ensures { result ≡ is_program_at number context }
{
    context % 3 == 0 || is_forbidding(number, context)
}
