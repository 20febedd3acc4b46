ghost use Rattle.readings.specs.Worked.{AllHold};

/// Every worked reading holds, of the definitions that the contracts of the library use.
#[tactic(auto, unfolding(std::specs::Prelude::count_ones))]
pub fn all_worked_readings_hold()
    ensures all_hold { AllHold }
{}
