//! What is apart by some segments is apart by others, and what flies apart exactly.

ghost use Rattle.sep_parts.specs.Apart.{ApartLaw, ExactLaw, SentLaw};

/// A law: drones that are apart are so however their curves are cut into segments; so what flies apart does with its
/// holds joined. What flies apart with strays and late starts flies apart exactly.
pub fn apart_law()
    ensures lifts { ApartLaw }
    ensures sent { SentLaw }
    ensures exact { ExactLaw }
{}
