// The settings of Ouster sensors.

#![tactic(auto)]

mod sensor;
mod settings;

pub use sensor::Sensor;
pub use settings::OusterSettings;
