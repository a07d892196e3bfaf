ghost use Rattle.std.specs.Prelude.{◌≡◌, option_map};
ghost use Rattle.std.specs.List.{find};
ghost use Rattle.grpc_core.specs.Heads.{path_of, is_at, method_at};

/// What is served: the methods of gNMI (gnmi.proto, service gNMI).
#[derive(Clone, Copy, Debug, PartialEq, Eq)]
pub enum Method {
    Capabilities,
    Get,
    Set,
    Subscribe,
}

const METHODS: [Method; 4] = [
    Method::Capabilities,
    Method::Get,
    Method::Set,
    Method::Subscribe,
];

impl Method {
    /// The path under which it is called, in ASCII.
    pub fn path(&self) -> &'static [u8]
        ensures { result.now ≡ path_of self.now }
    {
        match self {
            Method::Capabilities => b"/gnmi.gNMI/Capabilities",
            Method::Get => b"/gnmi.gNMI/Get",
            Method::Set => b"/gnmi.gNMI/Set",
            Method::Subscribe => b"/gnmi.gNMI/Subscribe",
        }
    }

    /// The method that is called under the path.
    pub fn at(path: &[u8]) -> Option<Method>
        ensures { result ≡ method_at path.now }
    {
        first_at(&METHODS, path).copied()
    }
}

fn first_at<'a>(methods: &'a [Method], path: &[u8]) -> Option<&'a Method>
    ensures { option_map (λ method. method.now) result ≡ find (is_at path.now) methods.now }
{
    methods.iter().find(|method| method.path() == path)
}
