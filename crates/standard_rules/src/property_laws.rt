//! The properties that rules ask of by a number are those of their names.
ghost use Rattle.std.specs.Prelude.{◌≡◌, Some, map};
ghost use Rattle.standard_rules.specs.PropertyNames.{named_properties, property_name};

/// Each number of a built-in property is that at which the table of properties has its name.
pub fn properties_stand_at_their_numbers()
    ensures { map (λ property. property_name property.0) named_properties ≡ map (λ property. Some property.1) named_properties }
{}
