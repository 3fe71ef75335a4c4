//! Cars that are for sale, and what they are worth: many numbers, few texts.
ghost use Rattle.std.specs.Prelude.{◌<◌};

use crate::benchmark::Benchmark;
use crate::carsales_capnp::{Color, car, engine, parking_lot, total_value, wheel};
use crate::random::Random;
use capnp::Result;
use capnp::message::{Reader, ReaderSegments};
use capnp::orphans::Orphanage;
use std::alloc::Global;

const MAKES: [&str; 5] = ["Toyota", "GM", "Ford", "Honda", "Tesla"];

const MODELS: [&str; 6] = ["Camry", "Prius", "Volt", "Accord", "Leaf", "Model S"];

/// The benchmark, with the cars of a request.
#[derive(Drop)]
pub struct CarSales {
    cars: Vec<car::Builder>,
}

impl Benchmark for CarSales {
    fn new(alloc: Global) -> Self {
        CarSales {
            cars: Vec::new(alloc),
        }
    }

    fn request(&mut self, random: &mut Random, objects: &mut Orphanage) -> Result<u64> {
        // Speed: the source of numbers is kept in registers while cars are filled, and a car is
        // moved once.
        self.cars.clear();
        let count = random.below(200) as usize;
        self.cars.reserve(count)?;
        let mut drawn = *random;
        let mut value: u64 = 0;
        for _ in 0..count {
            let mut car = car::Builder::new();
            value = value.wrapping_add(fill_car(&mut car, &mut drawn, objects)?);
            self.cars.push(car)?;
        }
        *random = drawn;
        let mut lot = parking_lot::Builder::new();
        lot.set_cars(car::Builder::add_list(self.cars.as_slice(), objects)?);
        lot.add_root(objects)?;
        Ok(value)
    }

    fn respond<S: ReaderSegments>(
        &mut self,
        request: &Reader<S>,
        objects: &mut Orphanage,
    ) -> Result<()> {
        let lot: parking_lot::Reader<'_, S> = request.get_root()?;
        let cars = lot.get_cars()?;
        let mut amount: u64 = 0;
        for car in cars.iter() {
            amount = amount.wrapping_add(value_of(&car)?);
        }
        let mut total = total_value::Builder::new();
        total.set_amount(amount);
        total.add_root(objects)
    }

    fn said<S: ReaderSegments>(&self, response: &Reader<S>) -> Result<u64> {
        let total: total_value::Reader<'_, S> = response.get_root()?;
        Ok(total.get_amount())
    }
}

// Sets each field of a car, and returns its value.
fn fill_car(car: &mut car::Builder, random: &mut Random, objects: &mut Orphanage) -> Result<u64> {
    car.set_make(objects.text(MAKES[random.below(5) as usize])?);
    car.set_model(objects.text(MODELS[random.below(6) as usize])?);
    car.set_color(Color::from_number(random.below(9) as u16));
    let seats = 2 + random.below(6) as u8;
    let doors = 2 + random.below(3) as u8;
    car.set_seats(seats);
    car.set_doors(doors);
    let wheels = fill_wheels(car, random, objects)?;
    let size = fill_size(car, random);
    let engine = fill_engine(car, random, objects)?;
    let capacity = 10.0 + random.up_to(30.0);
    car.set_fuel_capacity(capacity);
    car.set_fuel(random.up_to(capacity));
    let extras = fill_extras(car, random);
    Ok(seats_value(seats, doors) + wheels as u64 + size as u64 + engine as u64 + extras as u64)
}

fn seats_value(seats: u8, doors: u8) -> u64
    ensures { result < 1000000 }
{
    200 * seats as u64 + 350 * doors as u64
}

fn fill_wheels(
    car: &mut car::Builder,
    random: &mut Random,
    objects: &mut Orphanage,
) -> Result<u32> {
    let mut wheels = [wheel::Builder::new(); 4];
    let mut value: u32 = 0;
    for index in 0..4 {
        let diameter = 25 + random.below(15) as u16;
        let wheel = &mut wheels[index];
        wheel.set_diameter(diameter);
        wheel.set_air_pressure(30.0 + random.up_to(20.0));
        let snow = random.below(16) == 0;
        wheel.set_snow_tires(snow);
        value = value.wrapping_add(wheel_value(diameter, snow));
    }
    car.set_wheels(wheel::Builder::add_list(&wheels, objects)?);
    Ok(value)
}

fn wheel_value(diameter: u16, snow: bool) -> u32 {
    (diameter as u32)
        .wrapping_mul(diameter as u32)
        .wrapping_add(if snow { 100 } else { 0 })
}

fn fill_size(car: &mut car::Builder, random: &mut Random) -> u32 {
    let length = 170 + random.below(150) as u16;
    let width = 48 + random.below(36) as u16;
    let height = 54 + random.below(48) as u16;
    let volume = volume_of(length, width, height);
    car.set_length(length);
    car.set_width(width);
    car.set_height(height);
    car.set_weight(volume / 200);
    volume / 50
}

fn volume_of(length: u16, width: u16, height: u16) -> u32 {
    (length as u32)
        .wrapping_mul(width as u32)
        .wrapping_mul(height as u32)
}

fn fill_engine(
    car: &mut car::Builder,
    random: &mut Random,
    objects: &mut Orphanage,
) -> Result<u32> {
    let mut engine = engine::Builder::new();
    let horsepower = 100 * random.below(400) as u16;
    engine.set_horsepower(horsepower);
    engine.set_cylinders(4 + 2 * random.below(3) as u8);
    engine.set_cc(800 + random.below(10000));
    engine.set_uses_gas(true);
    let electric = random.flag();
    engine.set_uses_electric(electric);
    car.set_engine(engine.add(objects)?);
    Ok(engine_value(horsepower, true, electric))
}

fn engine_value(horsepower: u16, gas: bool, electric: bool) -> u32 {
    let power = match (electric, gas) {
        (true, true) => 5000,
        (true, false) => 3000,
        _ => 0,
    };
    40 * horsepower as u32 + power
}

fn fill_extras(car: &mut car::Builder, random: &mut Random) -> u32 {
    let windows = random.flag();
    let steering = random.flag();
    let cruise = random.flag();
    let holders = random.below(12) as u8;
    let system = random.flag();
    car.set_has_power_windows(windows);
    car.set_has_power_steering(steering);
    car.set_has_cruise_control(cruise);
    car.set_cup_holders(holders);
    car.set_has_nav_system(system);
    extras_value(windows, steering, cruise, system) + 25 * holders as u32
}

fn extras_value(windows: bool, steering: bool, cruise: bool, system: bool) -> u32
    ensures { result < 10000 }
{
    let power = if windows { 100 } else { 0 } + if steering { 200 } else { 0 };
    power + if cruise { 400 } else { 0 } + if system { 2000 } else { 0 }
}

// The value of a car, as it is read.
fn value_of<S: ReaderSegments>(car: &car::Reader<'_, S>) -> Result<u64> {
    let seats = seats_value(car.get_seats(), car.get_doors());
    let wheels = car.get_wheels()?;
    let mut value: u32 = 0;
    for wheel in wheels.iter() {
        value = value.wrapping_add(wheel_value(wheel.get_diameter(), wheel.get_snow_tires()));
    }
    let volume = volume_of(car.get_length(), car.get_width(), car.get_height());
    let engine = car.get_engine()?;
    let horsepower = engine.get_horsepower();
    let power = engine_value(
        horsepower,
        engine.get_uses_gas(),
        engine.get_uses_electric(),
    );
    let windows = car.get_has_power_windows();
    let steering = car.get_has_power_steering();
    let cruise = car.get_has_cruise_control();
    let extras = extras_value(windows, steering, cruise, car.get_has_nav_system());
    let holders = 25 * car.get_cup_holders() as u64;
    Ok(seats + value as u64 + (volume / 50) as u64 + power as u64 + extras as u64 + holders)
}
