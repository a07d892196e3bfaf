// Laws of the definitions, each as the contract of a function that does nothing.
ghost use Rattle.shared_book.specs.laws.MetLaws.{MetWentOn};

/// What is known of the entries of a port that has ended.
pub fn met_ports_went_on()
    ensures { MetWentOn }
{}
